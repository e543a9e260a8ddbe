// What the chip shows.
ghost use Rattle.std.specs.Prelude.{◌≡◌};
ghost use Rattle.controller.specs.Pins.{pin_of, outputs_of};

use crate::chip::Controller;

#[repr(C)]
#[derive(Clone, Copy)]
pub struct Outputs {
    pub ma: u16,
    pub ra: u8,
    pub picture: bool,
    pub display: bool,
    pub cursor: bool,
    pub hsync: bool,
    pub vsync: bool,
}

// A pin that can come late: the fact of this character, or, where it is delayed, of the character left.
#[tactic(auto, using(basics::proofs::Cases::cases), unfolding(crate::specs::Pins::pin_of))]
pub fn pin(delayed: bool, left: bool, here: bool) -> bool
    ensures { result ≡ pin_of delayed left here }
{
    if delayed { left } else { here }
}

impl Controller {
    // The outputs at this character.
    #[tactic(auto, unfolding(crate::specs::Pins::outputs_of))]
    pub fn outputs(self) -> Outputs
        ensures { result ≡ outputs_of self }
    {
        let picture = facts::picture(self.regs, self.scan);
        let cursor = facts::cursor(self.regs, self.scan);
        Outputs {
            ma: facts::ma(self.regs, self.scan),
            ra: self.scan.line,
            picture,
            display: pin(self.regs.display_delayed(), self.left.picture, picture),
            cursor: pin(self.regs.cursor_delayed(), self.left.cursor, cursor),
            hsync: 0 < self.sync.hsync,
            vsync: 0 < self.sync.vsync,
        }
    }
}
