// The call for typed rules for C: that of the crate typing, as an archive that C programs link.
#![tactic(auto)]

ghost use Rattle.typing.specs.Typed.{Typed};

use typing::export;
use typing::export::PathReply;

// Reads a typed rule and writes the bytes of its rule.
#[unsafe(no_mangle)]
pub extern "C" fn pz_read_path(text: &[u8], rule: &mut [u8]) -> PathReply
    ensures { Typed text.now rule.old result rule.new }
{
    export::pz_read_path(text, rule)
}
