// Kinds 10, 12 and 14 at one element: what the elements after, whose column leads here, have given.
ghost use Rattle.std.specs.Prelude.{◌≡◌, ◌&&◌};
ghost use Rattle.numbers.specs.Bits.{bit_at, in_word};
ghost use Rattle.steps.specs.Steps.{own_step, given_step};

use crate::word::bit_in;

// What is asked by turns of the elements ahead: a mark at the end of a way (kinds 10 and 12), at every
// one of at least one (14). Data and no closure, since two closures would have to share a law over what
// they answer; the compiler makes a loop of each.
#[derive(Clone, Copy)]
pub enum AskedAhead {
    Until,
    Every,
}

// An element's mark, by its bits.
fn own_mark(asked: AskedAhead, a: bool, b: bool, gathered: bool, child: bool) -> bool
    ensures { result ≡ own_step asked a b gathered child }
{
    match asked {
        AskedAhead::Until => b | (a & gathered),
        AskedAhead::Every => child & !gathered,
    }
}

// Whether an element gives to the one that its column leads to.
fn given_mark(asked: AskedAhead, a: bool, own: bool) -> bool
    ensures { result ≡ given_step asked a own }
{
    match asked {
        AskedAhead::Until => own,
        AskedAhead::Every => !a,
    }
}

// An element's mark, by its word.
pub fn own_at(asked: AskedAhead, a: usize, b: usize, i: usize, child: bool, w: u64) -> bool
    ensures { result ≡ own_step asked (bit_at w (in_word a)) (bit_at w (in_word b)) (bit_at w (in_word i)) child }
{
    own_mark(asked, bit_in(w, a), bit_in(w, b), bit_in(w, i), child)
}

// Whether an element of the word w and the mark `own` gives, if its column leads on.
pub fn given_at(asked: AskedAhead, a: usize, there: bool, own: bool, w: u64) -> bool
    ensures { result ≡ (there && given_step asked (bit_at w (in_word a)) own) }
{
    there & given_mark(asked, bit_in(w, a), own)
}
