// The column that an axis goes by.
ghost use Rattle.std.specs.Prelude.{◌≡◌};
ghost use Rattle.steps.specs.Steps.{column_of};

use terms::kind::Axis;

// The column of an axis: where each element's parent is, or its previous sibling.
pub fn column<'a>(x: Axis, ups: &'a [u16], lefts: &'a [u16]) -> &'a [u16]
    ensures { result.now ≡ column_of x ups.now lefts.now }
{
    match x {
        Axis::Child => ups,
        Axis::Parent => ups,
        Axis::Next => lefts,
        Axis::Previous => lefts,
    }
}
