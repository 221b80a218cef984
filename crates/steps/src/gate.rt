// Kinds 1, 3, 4 and 5: what they make of two bits of an element's word is a gate, an and, with the first
// bit, the second and the outcome each inverted or not. So an entry's loop has no branch, and takes
// several elements at once. A gate is data and no closure: one loop and one law serve all four.
ghost use Rattle.std.specs.Prelude.{◌≡◌};
ghost use Rattle.steps.specs.Steps.{gate_mark, always_gate, not_gate, or_gate, and_gate};

use numbers::bits::WORD_BITS;

// The two bits that a gate joins, and what it inverts.
#[derive(Clone, Copy)]
pub struct Gate {
    pub a: usize,
    pub b: usize,
    pub first: bool,
    pub second: bool,
    pub outcome: bool,
}

// Always true: the inverse of a bit and its own inverse, of whichever bit.
pub fn always_gate() -> Gate
    ensures { result ≡ always_gate }
{
    Gate {
        a: 0,
        b: 0,
        first: false,
        second: true,
        outcome: true,
    }
}

// Not bit a: both bits are it.
pub fn not_gate(a: usize) -> Gate
    ensures { result ≡ not_gate a }
{
    Gate {
        a,
        b: a,
        first: true,
        second: true,
        outcome: false,
    }
}

// Bit a or bit b.
pub fn or_gate(a: usize, b: usize) -> Gate
    ensures { result ≡ or_gate a b }
{
    Gate {
        a,
        b,
        first: true,
        second: true,
        outcome: true,
    }
}

// Bit a and bit b.
pub fn and_gate(a: usize, b: usize) -> Gate
    ensures { result ≡ and_gate a b }
{
    Gate {
        a,
        b,
        first: false,
        second: false,
        outcome: false,
    }
}

// What a gate makes of a word.
pub fn gate_mark(gate: Gate, w: u64) -> bool
    ensures { result ≡ gate_mark gate w }
{
    let x = (w >> (gate.a % WORD_BITS)) ^ (gate.first as u64);
    let y = (w >> (gate.b % WORD_BITS)) ^ (gate.second as u64);
    ((x & y) ^ (gate.outcome as u64)) % 2 == 1
}
