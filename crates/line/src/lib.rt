// Records off the serial line: bytes in cuts of any length, with those of an unfinished record held from call to call.
#![tactic(auto)]

mod calls;
mod ending;
mod held;

pub use calls::{Called, Line};
pub use ending::CallEnding;
pub use held::Held;
