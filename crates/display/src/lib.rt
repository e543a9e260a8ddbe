// The multiplexer's display counter: the address B of the next display byte, counted on by fetches and by the fall of HS, and put
// to the start of the picture by a preload.
#![tactic(auto)]

mod counter;
mod edges;
mod modes;

pub use counter::Display;
pub use modes::Mode;
