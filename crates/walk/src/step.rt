// The step table: an entry's bit from the element's label, its parent's word and its previous sibling's.
ghost use Rattle.std.specs.Prelude.{◌≡◌};
ghost use Rattle.meaning.specs.Marks.{means_here};
ghost use Rattle.meaning.specs.OnePass.{word_to, step_bit};

use numbers::bits::bit_at;
use terms::kind::{Axis, Local, Shape};

// Kinds 1 to 5 at an element with a label, from its bits.
fn local_bit(k: Local, label: usize, own: usize, a: bool, b: bool) -> bool
    ensures { result ≡ means_here k label own a b }
{
    match k {
        Local::Always => true,
        Local::HasLabel => own == label,
        Local::Negation => !a,
        Local::Disjunction => a | b,
        Local::Conjunction => a & b,
    }
}

// The word that an axis leads to: what is ahead has none yet.
fn word_to(x: Axis, p: u64, q: u64) -> u64
    ensures { result ≡ word_to x p q }
{
    match x {
        Axis::Parent => p,
        Axis::Previous => q,
        Axis::Child => 0,
        Axis::Next => 0,
    }
}

// Entry i's bit, from the bits of the entries before it (w), the parent's word (p) and the previous
// sibling's (q).
pub(crate) fn step_bit(
    shape: Shape,
    a: usize,
    b: usize,
    i: usize,
    label: usize,
    w: u64,
    p: u64,
    q: u64,
) -> bool
    ensures { result ≡ step_bit shape a b i label w p q }
{
    match shape {
        Shape::Here(k) => local_bit(k, a, label, bit_at(w, a), bit_at(w, b)),
        Shape::SomeAlong(x) => bit_at(word_to(x, p, q), a),
        Shape::UntilAlong(x) => bit_at(w, b) | (bit_at(w, a) & bit_at(word_to(x, p, q), i)),
        Shape::EveryChild => false,
        Shape::Nothing => false,
    }
}
