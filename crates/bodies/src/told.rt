// What the answers of kinds 6 and 8 tell. Numbers, as they stand in an answer: the calls that make the answers take any.
ghost use Rattle.std.specs.Prelude.{◌≡◌};
ghost use Rattle.bodies.specs.Told.{told_cycle_of, told_levels_of};

use multiplexer::{Cycle, Levelled, MemoryCell};

// Of a bus cycle.
#[derive(Clone, Copy)]
pub struct ToldCycle {
    pub select: u8,
    pub ticks: u8,
    pub flags: u8,
    pub cell: MemoryCell,
}

impl From<Cycle> for ToldCycle {
    ghost from_gives = { λ c told. told ≡ told_cycle_of c };

    fn from(c: Cycle) -> ToldCycle {
        ToldCycle {
            select: c.select,
            ticks: c.ticks,
            flags: c.flags(),
            cell: c.told_cell(),
        }
    }
}

// Of the levels of HS and DA0: the edge that they made, and the rows refreshed at it, count of them from first on.
#[derive(Clone, Copy)]
pub struct ToldLevels {
    pub edge: u8,
    pub first: u8,
    pub count: u8,
}

impl From<Levelled> for ToldLevels {
    ghost from_gives = { λ l told. told ≡ told_levels_of l };

    fn from(l: Levelled) -> ToldLevels {
        ToldLevels {
            edge: l.edge.map_or(0, u8::from),
            first: l.rows.first,
            count: l.rows.count,
        }
    }
}
