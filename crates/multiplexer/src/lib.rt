// The MC6883 multiplexer as a whole: what a bus cycle shows, where memory lies, and what HS does to display and refresh.
#![tactic(auto)]

mod bus;
mod cells;
mod chip;
mod edge;
mod refresh;

pub use bus::Cycle;
pub use cells::MemoryCell;
pub use chip::{Bused, Levelled, Multiplexer, Shown};
pub use edge::Edge;
pub use refresh::Rows;
