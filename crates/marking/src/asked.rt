// What a pass is given: the entry that is asked, the column that it goes along, and the elements.
ghost use Rattle.std.specs.Prelude.{ℕ, ◌≤◌, ◌<◌, length, get_or};

// Entry i, which asks the bits a and b of entries before it.
#[derive(Clone, Copy)]
pub(crate) struct Asked {
    pub a: usize,
    pub b: usize,
    pub i: usize,
    ghost earlier: { (a < i) × (b < i) },
}

// A column that leads from each element to one before it, or nowhere, where its own number stands.
#[derive(Clone, Copy)]
pub(crate) struct Column<'a> {
    pub numbers: &'a [u16],
    ghost not_past: { (s : ℕ) → s < length numbers.now → get_or numbers.now s 0 ≤ s },
}

// The elements of a report, as passes read them: their labels, parents and previous siblings.
#[derive(Clone, Copy)]
pub(crate) struct Elements<'a> {
    pub labels: &'a [u16],
    pub ups: &'a [u16],
    pub lefts: &'a [u16],
}
