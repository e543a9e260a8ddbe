// The raster of the 6545-1: its registers, where the scan is and how a character time moves it, and the sync counts.
#![tactic(auto)]

mod registers;
mod scan;
mod sync;

pub use registers::Registers;
pub use scan::Scan;
pub use sync::Sync;
