// Where the state's fields stand: what is read there, and what an opening and a closing store.
ghost use Rattle.std.specs.Prelude.{◌≡◌, cond, pred, ◌<◌, ◌≤◌, eqb};
ghost use Rattle.fields.specs.Fields.{present_word};
ghost use Rattle.state.specs.State.{presence_in, open_place, last_place};
ghost use Rattle.state.specs.Front.{FrontRead};
ghost use Rattle.state.specs.Stores.{opened_bytes, closed_bytes};
ghost use Rattle.terms.specs.Limits.{elements_most, levels_most};
ghost use Rattle.numbers.specs.Bytes.{word_at};

use crate::bytes::{number_at, put_number, put_word, word_at};
use fields::bad::{STATE_BYTES, bad_fields};
use fields::presence::{cleared_below, present_word, with_bit};
use fields::root::root_after;
use terms::refusal::Fault;

// Where its numbers stand: depth, elements, root closed; the presence word; the first open word and the
// first last word, each word of eight bytes.
const DEPTH: usize = 0;

const ELEMENTS: usize = 2;

const ROOT: usize = 4;

const PRESENCE: usize = 8;

const OPEN_WORDS: usize = 16;

const LAST_WORDS: usize = 528;

// A state's bytes.
pub(crate) type State = [u8; STATE_BYTES];

// The numbers in front of a state's words.
#[derive(Clone, Copy)]
pub(crate) struct Front {
    pub(crate) depth: usize,
    pub(crate) elements: usize,
    pub(crate) root: usize,
}

// The numbers in front of a state's words, if they are not bad.
pub(crate) fn read_front(s: &State) -> Result<Front, Fault>
    ensures { FrontRead s.now result }
{
    let front = Front {
        depth: number_at(s, DEPTH),
        elements: number_at(s, ELEMENTS),
        root: number_at(s, ROOT),
    };
    if bad_fields(front.depth, front.elements, front.root, s[6], s[7]) {
        return Err(Fault::StateBad);
    }
    Ok(front)
}

// The parent's word of an element that opens at depth d: open word d - 1, and 0 where there is none.
pub(crate) fn parent_word(s: &State, d: usize) -> u64
    requires { d ≤ levels_most }
    ensures { result ≡ cond (eqb d 0) 0 (word_at 8 s.now (open_place (pred d))) }
{
    if d == 0 {
        0
    } else {
        word_at(s, OPEN_WORDS + 8 * (d - 1))
    }
}

// The previous sibling's word: last word d, and 0 where presence bit d is 0.
pub(crate) fn sibling_word(s: &State, d: usize) -> u64
    requires { d < levels_most }
    ensures { result ≡ present_word (presence_in s.now) d (word_at 8 s.now (last_place d)) }
{
    let last = word_at(s, LAST_WORDS + 8 * d);
    present_word(word_at(s, PRESENCE), d, last)
}

// Stores what an opening writes behind this front, of an element whose word is w.
pub(crate) fn store_opening(s: &mut State, front: Front, w: u64)
    requires { (front.depth < levels_most) × (front.elements < elements_most) }
    ensures { s.new ≡ opened_bytes front.depth front.elements w s.old }
{
    let presence = word_at(s, PRESENCE);
    put_word(s, PRESENCE, cleared_below(presence, front.depth));
    put_word(s, OPEN_WORDS + 8 * front.depth, w);
    put_number(s, DEPTH, front.depth + 1);
    put_number(s, ELEMENTS, front.elements + 1);
}

// Stores what closing writes that leaves depth d.
pub(crate) fn store_closing(s: &mut State, d: usize)
    requires { d < levels_most }
    ensures { s.new ≡ closed_bytes d s.old }
{
    let w = word_at(s, OPEN_WORDS + 8 * d);
    let presence = word_at(s, PRESENCE);
    let root = number_at(s, ROOT);
    put_word(s, PRESENCE, with_bit(presence, d, true));
    put_word(s, LAST_WORDS + 8 * d, w);
    put_number(s, DEPTH, d);
    put_number(s, ROOT, root_after(root, d));
}
