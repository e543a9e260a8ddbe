// A batch as the programs take it: how long it may be, and its replay on fresh chips.
#![tactic(auto)]

mod fresh;

pub use fresh::{ANSWERS, MOST, OUTPUT, replay_fresh};
