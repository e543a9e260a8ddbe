// The display controller by itself: what each of its events does and answers, and whole records of kinds 1, 3 and 4 on it.
#![tactic(auto)]

mod answers;
mod events;
mod records;

pub use events::{Told, on_clocks, on_read, on_reset, on_strike, on_write};
pub use records::{clock, strike, write};
