// The locator: which cell of the picture the last pen strike fell in.
#![tactic(auto)]

mod answer;
mod cells;
mod fit;
mod row;

pub use answer::{Unlocated, locate};
pub use cells::Cell;
pub use fit::Fit;
