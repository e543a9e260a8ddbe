// Both chips side by side: one record, decoded once, handed to the chip that it is for, and answered.
#![tactic(auto)]

mod step;

pub use step::{Bench, Stepped};
