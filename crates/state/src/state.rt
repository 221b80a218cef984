// What start, an opening and a closing get from the state alone, and what they write there. Where they
// are refused the bytes are as they were.
ghost use Rattle.state.specs.Promises.{WordsRead, StateStarted, StateOpened, StateClosed};
ghost use Rattle.state.specs.Front.{WordsFound};
ghost use Rattle.terms.specs.Answer.{fault_number};

use crate::places::{parent_word, read_front, sibling_word, store_closing, store_opening};
use fields::bad::bad_size;
use fields::zeros::clear;
use tag::tag::{close_fault, open_fault};
use terms::limits::LEVELS_MOST;
use terms::refusal::Fault;

// The words of the parent and of the previous sibling that an opening reads.
#[derive(Clone, Copy)]
pub struct Words {
    pub parent: u64,
    pub sibling: u64,
}

// The words that an opening reads: none of a bad state, and none where no level is left.
fn find_words(state: &[u8]) -> Option<Words>
    ensures { WordsFound state.now result }
{
    let bytes = state.as_array()?;
    let Ok(front) = read_front(bytes) else {
        return None;
    };
    if LEVELS_MOST <= front.depth {
        return None;
    }
    Some(Words {
        parent: parent_word(bytes, front.depth),
        sibling: sibling_word(bytes, front.depth),
    })
}

// The same, where a word that there is not is 0: so it is promised, and no Option is.
pub fn words_of(state: &[u8]) -> Words
    ensures { WordsRead state.now result }
{
    find_words(state).unwrap_or(Words {
        parent: 0,
        sibling: 0,
    })
}

// Begins a report.
pub fn start_state(state: &mut [u8]) -> Result<(), Fault>
    ensures { StateStarted state.old (fault_number result) state.new }
{
    if bad_size(state.len()) {
        return Err(Fault::StateBad);
    }
    clear(state);
    Ok(())
}

// Opens an element whose word is w.
pub fn open_state(state: &mut [u8], label: usize, w: u64) -> Result<(), Fault>
    ensures { StateOpened state.old label w (fault_number result) state.new }
{
    let Some(bytes) = state.as_mut_array() else {
        return Err(Fault::StateBad);
    };
    let front = read_front(bytes)?;
    open_fault(front.depth, front.elements, front.root == 1, label)?;
    store_opening(bytes, front, w);
    Ok(())
}

// Closes the innermost open element.
pub fn close_state(state: &mut [u8]) -> Result<(), Fault>
    ensures { StateClosed state.old (fault_number result) state.new }
{
    let Some(bytes) = state.as_mut_array() else {
        return Err(Fault::StateBad);
    };
    let depth = read_front(bytes)?.depth;
    close_fault(depth)?;
    store_closing(bytes, depth - 1);
    Ok(())
}
