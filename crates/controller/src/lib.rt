// The 6545-1 display controller: registers, scan, syncs, delayed pins and light pen.
#![tactic(auto)]

mod bytes;
mod chip;
mod pins;
mod reads;
mod writes;

pub use chip::Controller;
pub use pins::{Outputs, pin};
pub use reads::Reading;
pub use writes::kept;
