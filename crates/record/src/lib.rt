// A record: its four bytes turned, one time and for all, into what is to be done, or into the reason why nothing is.
#![tactic(auto)]

mod event;
mod kinds;
mod sent;

pub use event::Event;
pub use kinds::{Refusal, decode, number};
pub use sent::Record;
