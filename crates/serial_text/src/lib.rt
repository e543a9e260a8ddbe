// The text of the program `serial`: the answers to what came off the line, each on its line, and the ending.
#![tactic(auto)]

mod ending;
mod turn;

pub use ending::{LAST, tell_end};
pub use turn::{TEXT, Told, space, tell};
