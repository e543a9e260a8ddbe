// The light pen: what it holds of its strikes, and what is asked of it. No other crate names its fields.
#![tactic(auto)]

mod pen;

pub use pen::{Pen, Strike};
