// A batch of records, replayed on the two chips.
#![tactic(auto)]

mod ending;
mod rest;
mod run;

pub use ending::Ending;
pub use rest::unread_rest;
pub use run::{Replayed, replay};
