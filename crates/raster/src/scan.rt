// Where the scan is, and one character time.
ghost use Rattle.std.specs.Prelude.{◌≡◌};
ghost use Rattle.basics.specs.Width.{counted_of};
ghost use Rattle.raster.specs.Scan.{top_of, new_frame_of, along_of, down_of, row_of, line_end_of, moved_of, next_of};
ghost use Rattle.raster.specs.private.Outcomes.{ends_frame_of};

use crate::registers::Registers;
use basics::Width;

#[repr(C)]
#[derive(Clone, Copy)]
pub struct Scan {
    pub column: u8,
    pub line: u8,
    pub row: u8,
    pub base: u16,
    pub start: u16,
    pub field: u8,
    pub adjusting: bool,
}

impl Scan {
    // The first character of a frame.
    pub fn top(r: Registers, field: u8) -> Scan
        ensures { result ≡ top_of r field }
    {
        let start = r.start();
        Scan {
            column: 0,
            line: 0,
            row: 0,
            base: start,
            start,
            field,
            adjusting: false,
        }
    }

    // This move and the next two stay changes of a field at a time: built anew with `..self`, a scan makes the clock's loop an eighth slower.
    fn along(mut self) -> Scan
        ensures { result ≡ along_of self }
    {
        self.column = self.column.wrapping_add(1);
        self
    }

    fn down(mut self) -> Scan
        ensures { result ≡ down_of self }
    {
        self.column = 0;
        self.line = five_on(self.line);
        self
    }

    fn next_row(mut self, r: Registers, adjusting: bool) -> Scan
        ensures { result ≡ row_of r self adjusting }
    {
        self.column = 0;
        self.line = 0;
        self.row = seven_on(self.row);
        self.base = Width::Fourteen.counted(self.base, r.held[1] as u16);
        self.adjusting = adjusting;
        self
    }

    fn next_frame(self, r: Registers) -> Scan
        ensures { result ≡ new_frame_of r self }
    {
        Scan::top(r, five_on(self.field))
    }

    // Whether the line's end is the frame's: among the adjust lines by their count, elsewhere as told.
    #[tactic(auto, using(basics::proofs::Cases::cases), unfolding(crate::specs::private::Outcomes::ends_frame_of))]
    fn ends_frame(self, r: Registers, told: bool) -> bool
        ensures { result ≡ ends_frame_of r self told }
    {
        if self.adjusting {
            five_on(self.line) == r.held[5]
        } else {
            told
        }
    }

    // Three outcomes and not six, so that the compiler keeps the loop over character times in machine registers.
    #[tactic(auto, using(basics::proofs::Cases::cases, crate::proofs::Outcomes::end_by_outcome))]
    fn line_end(self, r: Registers) -> Scan
        ensures { result ≡ moved_of r self (line_end_of r self) }
    {
        let bottom = self.line == r.held[9];
        let last = self.row == r.held[4];
        if self.ends_frame(r, bottom & last & (r.held[5] == 0)) {
            self.next_frame(r)
        } else if !self.adjusting & bottom {
            self.next_row(r, last)
        } else {
            self.down()
        }
    }

    // One character time.
    #[tactic(auto, using(basics::proofs::Cases::cases, crate::proofs::Outcomes::next_by_move))]
    pub fn next(self, r: Registers) -> Scan
        ensures { result ≡ next_of r self }
    {
        if self.column == r.held[0] {
            self.line_end(r)
        } else {
            self.along()
        }
    }
}

// One more, in a counter of five bits. Stays beside seven_on: a counter of seven or eight bits wraps by the byte's own addition, and a
// narrower one by its width (docs/RULES.md, "Where each language form belongs").
fn five_on(x: u8) -> u8
    ensures { result ≡ counted_of Width.Five x 1 }
{
    Width::Five.counted(x as u16, 1) as u8
}

// One more, in a counter of seven bits.
fn seven_on(x: u8) -> u8
    ensures { result ≡ counted_of Width.Seven x 1 }
{
    x.wrapping_add(1) % 128
}
