// The running tally for C: the call of the crate tally, as an archive that C programs link.
#![tactic(auto)]

ghost use Rattle.tally.specs.Tally.{Tallied, truth_of};

use tally::export;
use tally::export::Tally;

// Counts a verdict in the tally where it stands: 0 is a false verdict, anything else a true one.
#[unsafe(no_mangle)]
pub extern "C" fn pz_tally(tally: &mut Tally, verdict: u32) -> u32
    ensures { Tallied tally.old (truth_of verdict) result tally.new }
{
    export::pz_tally(tally, verdict)
}
