// The one-pass state's 1,040 bytes. state.rt has what start, an opening and a closing answer and write
// there, places.rt where its fields stand, bytes.rt numbers in bytes.
#![tactic(auto)]

mod bytes;
mod places;
pub mod state;
