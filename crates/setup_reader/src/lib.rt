// Reading a customer's setup file: whether it is one, where its bodies stand, and each body as a part of the file.
#![tactic(auto)]

mod bodies;
mod contents;
mod entries;
mod places;
mod read;

pub use bodies::part;
pub use places::{Places, Span};
pub use read::open;
