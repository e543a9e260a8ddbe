// The multiplexer's sixteen control bits: what each is called, and how a bus cycle writes them.
#![tactic(auto)]

mod bits;
mod write;

pub use bits::Control;
pub use write::is_control_write;
