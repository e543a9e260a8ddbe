// What is true of the character that the scan is at: whether it lies in the picture, its address, what a strike there latches, and
// whether the cursor shows there.
#![tactic(auto)]

mod facts;

pub use facts::{Facts, cursor, latch, ma, picture};
