// Root closed.
ghost use Rattle.std.specs.Prelude.{◌≡◌};
ghost use Rattle.fields.specs.Fields.{root_after};

// Root closed after a closing that leaves depth d: set, if nothing is open.
pub fn root_after(root: usize, d: usize) -> usize
    ensures { result ≡ root_after d root }
{
    if d == 0 { 1 } else { root }
}
