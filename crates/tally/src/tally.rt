// Seven numbers, and how they grow.
ghost use Rattle.std.specs.Prelude.{◌≡◌, ◌≤◌};
ghost use Rattle.tally.specs.Tally.{changed_of, AtMost, no_tally};
ghost use Rattle.tally.specs.private.Pass.{with_of};

use facts::Facts;
use raster::Sync;

// Seven counts: times in the picture; times at which each of the four pins is high; address lines that changed from one time to the next,
// all of them, and the most at once.
#[repr(C)]
#[derive(Clone, Copy)]
pub struct Tally {
    pub picture: u64,
    pub display: u64,
    pub cursor: u64,
    pub hsync: u64,
    pub vsync: u64,
    pub changed: u64,
    pub most: u64,
}

// In how many address lines two addresses differ.
#[tactic(auto, using(crate::proofs::Summing::few_lines))]
pub(crate) fn changed(from: u16, to: u16) -> u64
    ensures is { result ≡ changed_of from to }
    ensures most { result ≤ 16 }
{
    u64::from((from ^ to).count_ones())
}

impl Tally {
    // Nothing counted yet.
    pub fn none() -> Tally
        ensures { result ≡ no_tally }
    {
        Tally {
            picture: 0,
            display: 0,
            cursor: 0,
            hsync: 0,
            vsync: 0,
            changed: 0,
            most: 0,
        }
    }

    // With one time more: whether it is in the picture, the two pins that can come late, the syncs, and the address lines that change.
    #[tactic(auto, unfolding(crate::specs::private::Pass::with_of))]
    pub(crate) fn with(self, picture: bool, pins: Facts, sync: Sync, lines: u64) -> Tally
        requires at_most { AtMost 4294967296 self }
        requires lines_bound { lines ≤ 16 }
        ensures { result ≡ with_of self picture pins sync lines }
    {
        Tally {
            picture: self.picture + u64::from(picture),
            display: self.display + u64::from(pins.picture),
            cursor: self.cursor + u64::from(pins.cursor),
            hsync: self.hsync + u64::from(0 < sync.hsync),
            vsync: self.vsync + u64::from(0 < sync.vsync),
            changed: self.changed + lines,
            most: self.most.max(lines),
        }
    }
}
