// Kind 2 at one element: what its label is.
ghost use Rattle.std.specs.Prelude.{◌≡◌, eqb};

// Whether an element's own label is the one that is asked for.
pub fn label_mark(own: u16, label: usize) -> bool
    ensures { result ≡ eqb own label }
{
    own as usize == label
}
