// Register reads.
ghost use Rattle.std.specs.Prelude.{◌≡◌};
ghost use Rattle.basics.specs.Bits.{high_of, low_of};
ghost use Rattle.controller.specs.Chip.{with_pen};
ghost use Rattle.pen.specs.Pen.{emptied_of, newest_of};
ghost use Rattle.controller.specs.Reads.{blank_of, status_of, value_of, after_read_of, register_read_of, status_read_of, read_of};

use crate::chip::Controller;
use basics::{flag, high, low};

// What a read brings, and the controller after it. Stays a flag and a value, and no Option: C reads this struct.
#[repr(C)]
#[derive(Clone, Copy)]
pub struct Reading {
    pub driven: bool,
    pub value: u8,
    pub controller: Controller,
}

impl Controller {
    // V: the adjust lines run, or the row is past the picture.
    #[tactic(auto, unfolding(crate::specs::Reads::blank_of))]
    fn blank(self) -> bool
        ensures { result ≡ blank_of self }
    {
        self.scan.adjusting | (self.regs.held[6] <= self.scan.row)
    }

    #[tactic(auto, unfolding(crate::specs::Reads::status_of))]
    fn status(self) -> u8
        ensures { result ≡ status_of self }
    {
        flag(self.pen.unread(), 64) + flag(self.blank(), 32)
    }

    // R16: the high byte of the newest strike's latch. Stays beside latch_low: one line each, and the rules of R16 and R17 name them apart.
    fn latch_high(self) -> u8
        ensures { result ≡ high_of (newest_of self.pen).latch }
    {
        high(self.pen.newest().latch)
    }

    // R17: its low byte.
    fn latch_low(self) -> u8
        ensures { result ≡ low_of (newest_of self.pen).latch }
    {
        low(self.pen.newest().latch)
    }

    // What stands in register k, up to R17.
    #[tactic(auto, using(basics::proofs::Cases::cases), unfolding(crate::specs::Reads::value_of))]
    fn value(self, k: u8) -> u8
        ensures { result ≡ value_of self k }
    {
        match k {
            0..=15 => self.regs.held[k as usize],
            16 => self.latch_high(),
            _ => self.latch_low(),
        }
    }

    // L cleared.
    fn emptied(mut self) -> Controller
        ensures { result ≡ with_pen (emptied_of self.pen) self }
    {
        self.pen = self.pen.emptied();
        self
    }

    #[tactic(auto, using(basics::proofs::Cases::cases), unfolding(crate::specs::Reads::after_read_of))]
    fn after_read(self, k: u8) -> Controller
        ensures { result ≡ after_read_of self k }
    {
        match k {
            16 | 17 => self.emptied(),
            _ => self,
        }
    }

    // The named register, if it is one that drives the bus.
    #[tactic(auto, using(basics::proofs::Cases::cases), unfolding(crate::specs::Reads::register_read_of))]
    fn register_read(self) -> Reading
        ensures { result ≡ register_read_of self }
    {
        let k = self.regs.named;
        match k {
            14..=17 => Reading {
                driven: true,
                value: self.value(k),
                controller: self.after_read(k),
            },
            _ => Reading {
                driven: false,
                value: 0,
                controller: self,
            },
        }
    }

    #[tactic(auto, unfolding(crate::specs::Reads::status_read_of))]
    fn status_read(self) -> Reading
        ensures { result ≡ status_read_of self }
    {
        Reading {
            driven: true,
            value: self.status(),
            controller: self,
        }
    }

    // A read, by RS: the named register, or the status.
    #[tactic(auto, using(basics::proofs::Cases::cases), unfolding(crate::specs::Reads::read_of))]
    pub fn read(self, rs: bool) -> Reading
        ensures { result ≡ read_of self rs }
    {
        if rs {
            self.register_read()
        } else {
            self.status_read()
        }
    }
}
