// Many character times: the loop that the whole program spends its time in. It carries the scan and the sync counts alone, with the
// registers beside them, so that the compiler keeps them in machine registers, and it passes most columns and lines without a step.
#![tactic(auto)]

mod counts;
mod place;
mod skip;

pub use place::{Place, Walk};
