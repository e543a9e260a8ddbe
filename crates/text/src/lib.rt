// Texts: bytes as two lowercase hex digits each, bytes eight to a line, and whether a program says a text.
#![tactic(auto)]

mod hex;
mod lines;
mod owned;
mod speech;

pub use hex::put_hex;
pub use lines::{LINE, PER_LINE, put_lines};
pub use owned::Text;
pub use speech::said;
