// The text of the program `rooms`: a replay into an output of a chosen size.
#![tactic(auto)]

mod rooms;

pub use rooms::{INPUT, TEXT, counts, room, room_of};
