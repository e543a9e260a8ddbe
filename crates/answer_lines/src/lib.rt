// Answers on lines, as the listing and the serial line show them.
#![tactic(auto)]

mod lines;

pub use lines::{MARKED, add_answers, put_answers};
