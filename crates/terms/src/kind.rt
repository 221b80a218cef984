// The kinds of rule records: one match gives a record's length, how many numbers its body has, and what
// its entry means.
ghost use Rattle.std.specs.Prelude.{◌≡◌, ◌≤◌};
ghost use Rattle.terms.specs.Kinds.{axis_of, row_of, leads_back, shape_looks_back};

// The axes of the tree.
#[derive(Clone, Copy)]
pub enum Axis {
    Child,
    Parent,
    Next,
    Previous,
}

// What is asked of an element alone.
#[derive(Clone, Copy)]
pub enum Local {
    Always,
    HasLabel,
    Negation,
    Disjunction,
    Conjunction,
}

// What an entry means, by its shape: a question at the element; at a neighbour along an axis; at the end of
// a way along an axis; at every child. A number that is no kind means nothing.
#[derive(Clone, Copy)]
pub enum Shape {
    Nothing,
    Here(Local),
    SomeAlong(Axis),
    UntilAlong(Axis),
    EveryChild,
}

// What the numbers in a record's body are.
#[derive(Clone, Copy)]
pub enum Numbers {
    Nothing,
    Label,
    Entries,
}

// The row of a kind. Length 0 stands for a number that is no kind: no record is that short. (No Option: all
// callers but one hold a kind that was taken, and would have to make up a row for None.)
#[derive(Clone, Copy)]
pub struct Row {
    pub length: usize,
    pub arguments: usize,
    pub numbers: Numbers,
    pub shape: Shape,
}

// The axes in the order of kinds 6 to 9 and 10 to 13.
fn axis_of(n: usize) -> Axis
    ensures { result ≡ axis_of n }
{
    match n {
        0 => Axis::Child,
        1 => Axis::Parent,
        2 => Axis::Next,
        _ => Axis::Previous,
    }
}

// The row of one of kinds 1 to 5.
fn local_row(kind: usize) -> Row
    requires { (1 ≤ kind) × (kind ≤ 5) }
    ensures { result ≡ row_of kind }
{
    match kind {
        1 => Row {
            length: 2,
            arguments: 0,
            numbers: Numbers::Nothing,
            shape: Shape::Here(Local::Always),
        },
        2 => Row {
            length: 4,
            arguments: 1,
            numbers: Numbers::Label,
            shape: Shape::Here(Local::HasLabel),
        },
        3 => Row {
            length: 4,
            arguments: 1,
            numbers: Numbers::Entries,
            shape: Shape::Here(Local::Negation),
        },
        4 => Row {
            length: 6,
            arguments: 2,
            numbers: Numbers::Entries,
            shape: Shape::Here(Local::Disjunction),
        },
        _ => Row {
            length: 6,
            arguments: 2,
            numbers: Numbers::Entries,
            shape: Shape::Here(Local::Conjunction),
        },
    }
}

// The row of a kind.
pub fn row_of(kind: usize) -> Row
    ensures { result ≡ row_of kind }
{
    match kind {
        1..=5 => local_row(kind),
        6..=9 => Row {
            length: 4,
            arguments: 1,
            numbers: Numbers::Entries,
            shape: Shape::SomeAlong(axis_of(kind - 6)),
        },
        10..=13 => Row {
            length: 6,
            arguments: 2,
            numbers: Numbers::Entries,
            shape: Shape::UntilAlong(axis_of(kind - 10)),
        },
        14 => Row {
            length: 4,
            arguments: 1,
            numbers: Numbers::Entries,
            shape: Shape::EveryChild,
        },
        _ => Row {
            length: 0,
            arguments: 0,
            numbers: Numbers::Nothing,
            shape: Shape::Nothing,
        },
    }
}

// Whether a step along an axis leads back, to an element that opened before.
pub fn leads_back(x: Axis) -> bool
    ensures { result ≡ leads_back x }
{
    match x {
        Axis::Child => false,
        Axis::Parent => true,
        Axis::Next => false,
        Axis::Previous => true,
    }
}

// Whether an entry looks back: what it says of an element is settled when the element opens.
pub fn looks_back(shape: Shape) -> bool
    ensures { result ≡ shape_looks_back shape }
{
    match shape {
        Shape::Nothing => false,
        Shape::Here(_) => true,
        Shape::SomeAlong(x) => leads_back(x),
        Shape::UntilAlong(x) => leads_back(x),
        Shape::EveryChild => false,
    }
}
