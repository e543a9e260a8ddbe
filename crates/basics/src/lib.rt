// What every crate shares: counters over a width, bits and bytes of a number, and bytes laid at a place of a lent buffer. The
// definitions stand in specs/; the laws about them, and the one ruleset for case analysis, in proofs/.
#![tactic(auto)]

mod bits;
mod lay;
mod width;

pub use bits::{flag, high, low, number, word};
pub use lay::{has_room, put};
pub use width::Width;
