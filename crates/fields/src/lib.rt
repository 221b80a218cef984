// The one-pass state's fields as plain numbers, wherever they stand: bad.rt has which are bad, presence.rt and
// root.rt what an opening finds there and what an opening and a closing leave, zeros.rt what start leaves.
#![tactic(auto)]

pub mod bad;
pub mod presence;
pub mod root;
pub mod zeros;
