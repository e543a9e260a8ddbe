// The text of the program `listing`: each answer of a batch on its line, and the ending.
#![tactic(auto)]

mod listing;

pub use listing::{INPUT, TEXT, list};
