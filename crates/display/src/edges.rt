// What the edges of HS, and the level of DA0, do to the counter.
ghost use Rattle.std.specs.Prelude.{◌≡◌};
ghost use Rattle.display.specs.Edges.{fall_of, preload_of, with_b0};

use crate::counter::Display;
use crate::modes::Mode;
use basics::number;

impl Display {
    // HS falls: B1 up to the top bit are cleared, and only that bit's own fall counts onward.
    #[tactic(auto, using(basics::proofs::Cases::cases), unfolding(crate::specs::Edges::fall_of))]
    pub fn fall(mut self, mode: Mode) -> Display
        ensures { result ≡ fall_of mode self }
    {
        let b = self.b;
        match mode.top {
            4 => {
                self.b = b / 32 * 32 + b % 2;
                if b / 16 % 2 == 1 {
                    self.count_y(mode)
                } else {
                    self
                }
            }
            3 => {
                self.b = b / 16 * 16 + b % 2;
                if b / 8 % 2 == 1 {
                    self.count_x(mode)
                } else {
                    self
                }
            }
            _ => self,
        }
    }

    // HS rises with DA0 high: the picture starts again where F says.
    #[tactic(auto, unfolding(crate::specs::Edges::preload_of))]
    pub fn preload(self, f: u8) -> Display
        ensures { result ≡ preload_of f self }
    {
        Display {
            b: u16::from(f % 128) * 512 + self.b % 2,
            x: 0,
            y: 0,
        }
    }

    // B0 put to the level of DA0, without a count.
    #[tactic(auto, unfolding(crate::specs::Edges::with_b0))]
    pub fn with_b0(mut self, da0: bool) -> Display
        ensures { result ≡ with_b0 da0 self }
    {
        self.b = self.b / 2 * 2 + u16::from(number(da0));
        self
    }
}
