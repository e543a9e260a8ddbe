// Character times passed without a step each: the columns of a line, and whole lines of a row.
ghost use Rattle.std.specs.Prelude.{◌≡◌, ◌+◌, ◌<◌};
ghost use Rattle.clocks.specs.private.Skip.{Whole, Reached, hsync_columns, hsync_lines, columns_on, lines_on};

use crate::counts::{clear, less_lines, line_times};
use crate::place::Place;
use raster::{Registers, Scan, Sync};

// A place further on, and how many character times further.
#[derive(Clone, Copy)]
pub(crate) struct Skip {
    pub place: Place,
    pub times: u16,
}

impl Place {
    // The HSYNC count, k columns on. The bound stays a `requires` here and in columns_on: it ties a place to k, so no place has it by itself.
    #[tactic(auto, using(basics::proofs::Cases::cases), unfolding(crate::specs::private::Skip::hsync_columns))]
    fn hsync_columns(self, r: Registers, k: u8) -> u8
        requires { self.scan.column + k < 256 }
        ensures { result ≡ hsync_columns r self.scan.column k self.sync.hsync }
    {
        let to = self.scan.column + k;
        let load = r.held[2];
        if load <= self.scan.column {
            self.sync.hsync.saturating_sub(k)
        } else if to < load {
            self.sync.hsync.saturating_sub(k)
        } else {
            (r.held[3] % 16).saturating_sub(to - load)
        }
    }

    #[tactic(auto, unfolding(crate::specs::private::Skip::columns_on))]
    fn columns_on(self, r: Registers, k: u8) -> Place
        requires { self.scan.column + k < 256 }
        ensures { result ≡ columns_on r self k }
    {
        Place {
            scan: Scan {
                column: self.scan.column + k,
                ..self.scan
            },
            sync: Sync {
                hsync: self.hsync_columns(r, k),
                ..self.sync
            },
        }
    }

    // Columns at once, up to the last of the line.
    fn skip_columns(self, r: Registers, remaining: u16) -> Skip
        ensures { Reached r remaining self result }
    {
        let room = clear(self.scan.column, r.held[0], 255);
        let times = (room as u16).min(remaining);
        Skip {
            place: self.columns_on(r, times as u8),
            times,
        }
    }

    // The HSYNC count, m lines on.
    #[tactic(auto, using(basics::proofs::Cases::cases), unfolding(crate::specs::private::Skip::hsync_lines))]
    fn hsync_lines(self, r: Registers, m: u8) -> u8
        ensures { result ≡ hsync_lines r m self.sync.hsync }
    {
        let end = r.held[0];
        let load = r.held[2];
        if m == 0 {
            self.sync.hsync
        } else if end < load {
            less_lines(self.sync.hsync, m, end)
        } else if load == 0 {
            r.held[3] % 16
        } else {
            (r.held[3] % 16)
                .saturating_sub(end - load)
                .saturating_sub(1)
        }
    }

    #[tactic(auto, unfolding(crate::specs::private::Skip::lines_on))]
    fn lines_on(self, r: Registers, m: u8) -> Place
        requires { self.scan.line + m < 256 }
        ensures { result ≡ lines_on r self m }
    {
        Place {
            scan: Scan {
                line: self.scan.line + m,
                ..self.scan
            },
            sync: Sync {
                hsync: self.hsync_lines(r, m),
                vsync: self.sync.vsync.saturating_sub(m),
            },
        }
    }

    // Lines from here that are not their row's last.
    fn whole_lines(self, r: Registers) -> u8
        ensures { Whole r self result }
    {
        if !self.scan.adjusting && self.scan.column == 0 {
            clear(self.scan.line, r.held[9], 31)
        } else {
            0
        }
    }

    // Whole lines at once, up to the last of the row: all of them, or none where fewer times remain.
    fn skip_lines(self, r: Registers, remaining: u16) -> Skip
        ensures { Reached r remaining self result }
    {
        let m = self.whole_lines(r);
        let times = line_times(m, r.held[0]);
        if remaining < times {
            Skip {
                place: self,
                times: 0,
            }
        } else {
            Skip {
                place: self.lines_on(r, m),
                times,
            }
        }
    }

    // Lines first, then columns.
    #[tactic(auto, using(crate::proofs::Reaching::reached_both))]
    fn skip_both(self, r: Registers, remaining: u16) -> Skip
        ensures { Reached r remaining self result }
    {
        let lines = self.skip_lines(r, remaining);
        let columns = lines.place.skip_columns(r, remaining - lines.times);
        Skip {
            place: columns.place,
            times: lines.times + columns.times,
        }
    }

    // As many of the times that remain as can be passed at once. At the last character of a row that is none, and to look for some
    // there would only slow down rows of a single character.
    pub(crate) fn skip_ahead(self, r: Registers, remaining: u16) -> Skip
        ensures { Reached r remaining self result }
    {
        if (self.scan.column == r.held[0]) & (self.scan.line == r.held[9]) {
            Skip {
                place: self,
                times: 0,
            }
        } else {
            self.skip_both(r, remaining)
        }
    }
}
