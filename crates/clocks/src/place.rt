// A place of the scan with its sync counts, and a walk of n character times from it.
ghost use Rattle.std.specs.Prelude.{◌≡◌};
ghost use Rattle.clocks.specs.Walk.{on_from, walk_of};

use raster::{Registers, Scan, Sync};

#[repr(C)]
#[derive(Clone, Copy)]
pub struct Place {
    pub scan: Scan,
    pub sync: Sync,
}

// Where a walk has come to, and the character that its last step left.
#[repr(C)]
#[derive(Clone, Copy)]
pub struct Walk {
    pub place: Place,
    pub from: Scan,
}

impl Place {
    // One character time.
    #[tactic(auto, unfolding(crate::specs::Walk::stepped_of))]
    fn step(self, r: Registers) -> Walk
        ensures { result ≡ on_from r self }
    {
        let from = self.scan;
        let to = from.next(r);
        Walk {
            place: Place {
                scan: to,
                sync: self.sync.arrive(r, to),
            },
            from,
        }
    }

    // n character times. Each turn passes as many as it can at once and then takes one step; the last step's character is the one left.
    pub fn walk(self, r: Registers, n: u16) -> Walk
        ensures { result ≡ walk_of r n self }
    {
        let mut w = Walk {
            place: self,
            from: self.scan,
        };
        let mut i: u16 = 0;
        // Stays a `while`: every turn passes another number of times.
        while i < n {
            let skip = w.place.skip_ahead(r, n - i - 1);
            w = skip.place.step(r);
            i += skip.times + 1;
        }
        w
    }
}
