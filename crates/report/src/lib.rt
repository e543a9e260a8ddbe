// The report on a batch of settings: a row of seven numbers for each, and a row of totals.
#![tactic(auto)]

mod rows;
mod settings;

pub use rows::ROW;
pub use settings::{INPUT, MOST, Refusal, report};
