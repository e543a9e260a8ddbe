// What a frame does, in seven numbers.
#![tactic(auto)]

mod frame;
mod pass;
mod tally;

pub use frame::count_frame;
pub use tally::Tally;
