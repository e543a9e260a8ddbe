// A character time as four bytes.
ghost use Rattle.std.specs.Prelude.{◌≡◌};
ghost use Rattle.controller.specs.Bytes.{flags_of, time_bytes_of};

use crate::pins::Outputs;
use basics::{flag, high, low};

impl Outputs {
    // Picture and pins as one number. Stays a sum by hand: five facts are packed, and no conversion of one thing does that.
    #[tactic(auto, unfolding(crate::specs::Bytes::flags_of))]
    fn flags(self) -> u8
        ensures { result ≡ flags_of self }
    {
        flag(self.picture, 1)
            + flag(self.display, 2)
            + flag(self.cursor, 4)
            + flag(self.hsync, 8)
            + flag(self.vsync, 16)
    }

    // MA high, MA low, RA and the flags. Stays a method: rules and promises name it, and an array's `from` would say less.
    #[tactic(auto, unfolding(crate::specs::Bytes::time_bytes_of))]
    pub fn bytes(self) -> [u8; 4]
        ensures { result ≡ time_bytes_of self }
    {
        [high(self.ma), low(self.ma), self.ra, self.flags()]
    }
}
