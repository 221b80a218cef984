// The number of a fault, as C gets it.
ghost use Rattle.std.specs.Prelude.{◌≡◌};
ghost use Rattle.terms.specs.Answer.{number_of_fault};

use crate::refusal::Fault;

impl From<Fault> for u32 {
    ghost from_gives = { λ fault number. number ≡ number_of_fault fault };

    fn from(fault: Fault) -> u32 {
        fault as u32
    }
}
