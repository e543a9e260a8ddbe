// The controller: power-on, reset, writes, character times and pen strikes.
ghost use Rattle.std.specs.Prelude.{◌≡◌};
ghost use Rattle.controller.specs.Chip.{arrived_of, fresh_of, reset_of, write_of, clock_of, strike_of};
ghost use Rattle.controller.specs.private.Walked.{place_of, walked_of};

use crate::writes::written;
use clocks::{Place, Walk};
use facts::{Facts, latch};
use pen::{Pen, Strike};
use raster::{Registers, Scan, Sync};

#[repr(C)]
#[derive(Clone, Copy)]
pub struct Controller {
    pub regs: Registers,
    pub scan: Scan,
    pub sync: Sync,
    // the facts of the character just left, as they were judged then
    pub left: Facts,
    pub pen: Pen,
}

impl Controller {
    // The bits that a write keeps, R0 to R15.
    pub const MASKS: [u8; 16] = [
        255, // R0
        255, // R1
        255, // R2
        255, // R3
        127, // R4
        31, // R5
        127, // R6
        127, // R7
        255, // R8
        31, // R9
        127, // R10
        31, // R11
        63, // R12
        255, // R13
        63, // R14
        255, // R15
    ];

    // The power-on state.
    #[tactic(auto, unfolding(crate::specs::Chip::fresh_of))]
    pub fn fresh() -> Controller
        ensures { result ≡ fresh_of }
    {
        Controller::arrived(Registers {
            held: [0; 16],
            named: 0,
        })
    }

    #[tactic(auto, unfolding(crate::specs::Chip::arrived_of))]
    fn arrived(r: Registers) -> Controller
        ensures { result ≡ arrived_of r }
    {
        let top = Scan::top(r, 0);
        let still = Sync { hsync: 0, vsync: 0 };
        Controller {
            regs: r,
            scan: top,
            sync: still.arrive(r, top),
            left: Facts {
                picture: false,
                cursor: false,
            },
            pen: Pen::none(),
        }
    }

    #[tactic(auto, unfolding(crate::specs::Chip::reset_of))]
    pub fn reset(self) -> Controller
        ensures { result ≡ reset_of self }
    {
        Controller::arrived(self.regs)
    }

    // A register write, by RS.
    #[tactic(auto, unfolding(crate::specs::Chip::write_of))]
    pub fn write(mut self, rs: bool, v: u8) -> Controller
        ensures { result ≡ write_of self rs v }
    {
        self.regs = written(self.regs, rs, v);
        self
    }

    // n character times.
    pub fn clock(self, n: u16) -> Controller
        ensures { result ≡ clock_of n self }
    {
        if n == 0 {
            self
        } else {
            self.walked(self.place().walk(self.regs, n))
        }
    }

    fn place(self) -> Place
        ensures { result ≡ place_of self }
    {
        Place {
            scan: self.scan,
            sync: self.sync,
        }
    }

    #[tactic(auto, unfolding(crate::specs::private::Walked::walked_of))]
    fn walked(mut self, w: Walk) -> Controller
        ensures { result ≡ walked_of self w }
    {
        self.left = Facts::at(self.regs, w.from);
        self.scan = w.place.scan;
        self.sync = w.place.sync;
        self
    }

    // A pen strike at this character.
    #[tactic(auto, unfolding(crate::specs::Chip::strike_of, crate::specs::Pins::outputs_of))]
    pub fn strike(mut self) -> Controller
        ensures { result ≡ strike_of self }
    {
        let strike = Strike {
            latch: latch(self.regs, self.scan),
            inside: self.outputs().picture,
        };
        self.pen = self.pen.struck(strike);
        self
    }
}
