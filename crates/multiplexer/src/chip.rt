// The whole multiplexer: its state, and what each of its records does to it.
ghost use Rattle.std.specs.Prelude.{◌≡◌};
ghost use Rattle.multiplexer.specs.Chip.{fresh_of, bus_of, fetches_of, shown_of, levels_of};

use crate::bus::{Cycle, judged};
use crate::cells::{MemoryCell, cell_at};
use crate::edge::{Edge, edge_between, mode_in_force, moved};
use crate::refresh::{Rows, refreshed};
use control::Control;
use display::Display;

// The refresh counter has seven bits; hs is the level that HS has.
#[derive(Clone, Copy)]
pub struct Multiplexer {
    pub control: Control,
    pub display: Display,
    pub refresh: u8,
    pub hs: bool,
}

// After a bus cycle, and what the cycle showed.
#[derive(Clone, Copy)]
pub struct Bused {
    pub multiplexer: Multiplexer,
    pub cycle: Cycle,
}

// The display address, its cell, and whether the display has access to the memory.
#[derive(Clone, Copy)]
pub struct Shown {
    pub address: u16,
    pub cell: MemoryCell,
    pub access: bool,
}

// After the levels of HS and DA0: the edge that they made, if they made one, and the rows refreshed at it.
#[derive(Clone, Copy)]
pub struct Levelled {
    pub multiplexer: Multiplexer,
    pub edge: Option<Edge>,
    pub rows: Rows,
}

impl Multiplexer {
    // As it starts.
    pub fn fresh() -> Multiplexer
        ensures { result ≡ fresh_of }
    {
        Multiplexer {
            control: Control::clear(),
            display: Display::start(),
            refresh: 0,
            hs: true,
        }
    }

    // After its reset, whatever it was: nothing of it stays.
    pub fn reset(self) -> Multiplexer
        ensures { result ≡ fresh_of }
    {
        Multiplexer::fresh()
    }

    // One bus cycle, judged with the control bits as they stood before its own write.
    #[tactic(auto, unfolding(crate::specs::Chip::bus_of))]
    pub fn bus(self, address: u16, read: bool) -> Bused
        ensures { result ≡ bus_of self address read }
    {
        let before = self.control;
        let after = before.after(address, read);
        let cycle = judged(before, address, read);
        let multiplexer = Multiplexer {
            control: after,
            ..self
        };
        Bused { multiplexer, cycle }
    }

    // n display fetches.
    #[tactic(auto, unfolding(crate::specs::Chip::fetches_of))]
    pub fn fetches(self, n: u16) -> Multiplexer
        ensures { result ≡ fetches_of self n }
    {
        let display = self.display.fetches(mode_in_force(self.control), n);
        Multiplexer { display, ..self }
    }

    // What the display shows of itself: its address and cell are told even where it has no access.
    #[tactic(auto, unfolding(crate::specs::Chip::shown_of))]
    pub fn shown(self) -> Shown
        ensures { result ≡ shown_of self }
    {
        let address = self.display.b;
        Shown {
            address,
            cell: cell_at(self.control, address),
            access: !self.control.r1(),
        }
    }

    // The levels of HS and DA0.
    #[tactic(auto, unfolding(crate::specs::Chip::levels_of))]
    pub fn levels(self, hs: bool, da0: bool) -> Levelled
        ensures { result ≡ levels_of self hs da0 }
    {
        let control = self.control;
        let edge = edge_between(self.hs, hs, da0);
        let refresh = refreshed(control, edge, self.refresh);
        let display = moved(control, edge, self.display).with_b0(da0);
        let multiplexer = Multiplexer {
            control,
            display,
            refresh: refresh.counter,
            hs,
        };
        Levelled {
            multiplexer,
            edge,
            rows: refresh.rows,
        }
    }
}
