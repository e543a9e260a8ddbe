// The sync counts.
ghost use Rattle.std.specs.Prelude.{◌≡◌};
ghost use Rattle.raster.specs.Sync.{hsync_of, vsync_starts_of, vsync_width_of, vsync_of, arrive_of};

use crate::registers::Registers;
use crate::scan::Scan;

#[repr(C)]
#[derive(Clone, Copy)]
pub struct Sync {
    pub hsync: u8,
    pub vsync: u8,
}

#[tactic(auto, unfolding(crate::specs::Sync::vsync_starts_of))]
fn vsync_starts(r: Registers, s: Scan) -> bool
    ensures { result ≡ vsync_starts_of r s }
{
    !s.adjusting & (s.line == 0) & (s.row == r.held[7])
}

#[tactic(auto, using(basics::proofs::Cases::cases), unfolding(crate::specs::Sync::vsync_width_of))]
fn vsync_width(r: Registers) -> u8
    ensures { result ≡ vsync_width_of r }
{
    let width = r.held[3] / 16;
    if width == 0 { 16 } else { width }
}

impl Sync {
    #[tactic(auto, using(basics::proofs::Cases::cases), unfolding(crate::specs::Sync::hsync_of))]
    fn horizontal(self, r: Registers, s: Scan) -> u8
        ensures { result ≡ hsync_of r s self.hsync }
    {
        if s.column == r.held[2] {
            r.held[3] % 16
        } else {
            self.hsync.saturating_sub(1)
        }
    }

    #[tactic(auto, using(basics::proofs::Cases::cases), unfolding(crate::specs::Sync::vsync_of))]
    fn vertical(self, r: Registers, s: Scan) -> u8
        ensures { result ≡ vsync_of r s self.vsync }
    {
        if s.column != 0 {
            self.vsync
        } else if vsync_starts(r, s) {
            vsync_width(r)
        } else {
            self.vsync.saturating_sub(1)
        }
    }

    // Both counts on arrival at a character.
    #[tactic(auto, unfolding(crate::specs::Sync::arrive_of))]
    pub fn arrive(self, r: Registers, s: Scan) -> Sync
        ensures { result ≡ arrive_of r s self }
    {
        Sync {
            hsync: self.horizontal(r, s),
            vsync: self.vertical(r, s),
        }
    }
}
