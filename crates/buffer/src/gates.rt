// A gate over all words of a buffer: kinds 1, 3, 4 and 5.
ghost use Rattle.std.specs.Prelude.{◌≡◌, length};
ghost use Rattle.numbers.specs.Lists.{listed};
ghost use Rattle.buffer.specs.Gates.{gated_word};

use steps::gate::{Gate, gate_mark};
use steps::word::put_bit;

// Puts bit i of every word, by what a gate makes of the word.
pub fn gate_pass(gate: Gate, i: usize, words: &mut [u64])
    ensures { words.new ≡ listed (length words.old) (gated_word gate i words.old) }
{
    for w in words {
        *w = put_bit(*w, i, gate_mark(gate, *w));
    }
}
