// One pass over character times. It carries the scan, the sync counts and the facts of the character left, with the registers beside
// them, so that the compiler keeps them in machine registers.
ghost use Rattle.std.specs.Prelude.{◌≡◌, ◌+◌, ◌-◌, ◌<◌, ◌≤◌};
ghost use Rattle.basics.specs.Iterate.{iterate};
ghost use Rattle.raster.specs.Registers.{reg};
ghost use Rattle.tally.specs.Tally.{AtMost, no_tally};
ghost use Rattle.tally.specs.private.Pass.{pins_of, pass_of, turn_of};

use crate::tally::{Tally, changed};
use controller::{Controller, pin};
use facts::{Facts, ma};
use raster::{Registers, Scan, Sync};

#[derive(Clone, Copy)]
pub(crate) struct Pass {
    pub scan: Scan,
    pub sync: Sync,
    pub left: Facts,
    pub tally: Tally,
}

// The pins that can come late: display enable and cursor.
#[tactic(auto, unfolding(crate::specs::private::Pass::pins_of))]
fn pins(r: Registers, left: Facts, here: Facts) -> Facts
    ensures { result ≡ pins_of r left here }
{
    Facts {
        picture: pin(r.display_delayed(), left.picture, here.picture),
        cursor: pin(r.cursor_delayed(), left.cursor, here.cursor),
    }
}

// How many columns are left before the last of the line, or so many at the most.
pub(crate) fn columns_before(column: u8, end: u8, most: u32) -> u32
    ensures { (result ≤ most) × (result ≤ end - column) × (column + result < 256) }
{
    u32::from(end.saturating_sub(column)).min(most)
}

// How large the numbers may be stays in the clauses: the bound differs from one to the next, and each turn raises it, so no invariant of the
// struct could keep it.
impl Pass {
    // Before the first character time.
    pub(crate) fn begin(c: Controller) -> Pass
        ensures { result ≡ pass_of c no_tally }
    {
        Pass {
            scan: c.scan,
            sync: c.sync,
            left: c.left,
            tally: Tally::none(),
        }
    }

    // One character time, counted as it is left.
    #[tactic(auto, unfolding(crate::specs::private::Pass::turn_of))]
    pub(crate) fn turn(self, r: Registers) -> Pass
        requires { AtMost 4294967296 self.tally }
        ensures { result ≡ turn_of r self }
    {
        let scan = self.scan;
        let here = Facts::at(r, scan);
        let next = scan.next(r);
        let lines = changed(ma(r, scan), ma(r, next));
        let late = pins(r, self.left, here);
        Pass {
            scan: next,
            sync: self.sync.arrive(r, next),
            left: here,
            tally: self.tally.with(here.picture, late, self.sync, lines),
        }
    }

    // The same within a line, where of the scan only the column moves, and of the syncs only HSYNC.
    fn along(self, r: Registers) -> Pass
        requires fact { self.scan.column ≡ reg r 0 → ⊥ }
        requires column_bound { self.scan.column < 255 }
        requires at_most { AtMost 4294967296 self.tally }
        ensures { result ≡ turn_of r self }
    {
        let next = Scan {
            column: self.scan.column + 1,
            ..self.scan
        };
        let here = Facts::at(r, self.scan);
        let tally = self.tally.with(
            here.picture,
            pins(r, self.left, here),
            self.sync,
            changed(ma(r, self.scan), ma(r, next)),
        );
        let arrived = self.sync.arrive(r, next);
        Pass {
            scan: next,
            sync: Sync {
                hsync: arrived.hsync,
                ..self.sync
            },
            left: here,
            tally,
        }
    }

    // k columns of a line one after the other. That the scan moves by its column alone lets the compiler take all else out of the loop. The
    // bounds stay a `requires`: they tie a pass to k.
    pub(crate) fn columns(self, r: Registers, k: u32) -> Pass
        requires k_bound { k ≤ reg r 0 - self.scan.column }
        requires k_bound_2 { self.scan.column + k < 256 }
        requires at_most { AtMost 4294963200 self.tally }
        ensures { result ≡ iterate (turn_of r) k self }
    {
        let mut p = self;
        for _ in 0..k {
            p = p.along(r);
        }
        p
    }
}
