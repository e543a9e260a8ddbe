// The text of a report: a line for each setting, and the totals.
#![tactic(auto)]

mod lines;
mod whole;

pub use whole::{INPUT, TEXT, tell};
