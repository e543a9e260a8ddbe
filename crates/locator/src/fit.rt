// Which cells fit a latch. The rows are gone over once. Where the line goes on for two characters more a row has at most one cell that fits,
// since its columns are fewer than the addresses they run through: so that one is computed and struck. Of the others only those among the
// line's last two are, in the rows where one of them can fit.
ghost use Rattle.std.specs.Prelude.{◌≡◌, ℕ, ◌+◌, ◌-◌, ◌<◌, ◌≤◌, true, false, ◌≢◌};
ghost use Rattle.raster.specs.Registers.{reg};
ghost use Rattle.locator.specs.Cells.{cell_at, columns_of, fits_of, fit_of};
ghost use Rattle.locator.specs.private.Search.{joined_of, one_fit_of, front_of, part_fit_of, row_fit_of, from_base_of, from_low_of};

use crate::cells::{Cell, columns, front, rows};
use crate::row::{Row, first_base};
use raster::Registers;

// Of a list of cells: none, just one, or more.
#[derive(Clone, Copy)]
pub enum Fit {
    Free,
    One(Cell),
    Many,
}

impl Fit {
    // The answer for two lists one after the other. The second is looked at first, since most rows add none: so these cost the least.
    #[tactic(auto, unfolding(crate::specs::private::Search::joined_of))]
    pub(crate) fn join(self, next: Fit) -> Fit
        ensures { result ≡ joined_of self next }
    {
        match (self, next) {
            (one, Fit::Free) => one,
            (Fit::Free, other) => other,
            _ => Fit::Many,
        }
    }
}

#[tactic(auto, using(basics::proofs::Cases::cases), unfolding(crate::specs::private::Search::one_fit_of))]
fn one_fit(fits: bool, c: Cell) -> Fit
    ensures { result ≡ one_fit_of fits c }
{
    if fits { Fit::One(c) } else { Fit::Free }
}

// The column from which a row with that base reaches a latch in two columns more, over all addresses.
fn from_base(base: u16, latch: u16) -> u16
    ensures { result ≡ from_base_of base latch }
{
    latch.wrapping_sub(base).wrapping_sub(2) % 16384
}

// The same where the column moves the low byte alone. Stays beside from_base: each wraps by its own rule, in a line that says it.
fn from_low(start: u16, latch: u16) -> u16
    ensures { result ≡ from_low_of start latch }
{
    latch.wrapping_sub(start).wrapping_sub(2) % 256
}

impl Row<'_> {
    // The one column of a row that can fit, of those two or more before the line's end.
    #[inline(always)]
    fn only_column(self) -> u16
        ensures { (x : ℕ) → x + 2 ≤ reg self.entry.registers.now 0 → x + 2 < 256 → fits_of self.entry.registers.now self.entry.latch (cell_at self.entry.number x) ≡ true → x ≡ result }
    {
        if self.registers.by_rows() {
            return from_low(self.registers.start(), self.latch);
        }
        from_base(self.base, self.latch)
    }

    // Which cells of a row fit, of those two or more before the line's end. Their lines latch alike, so the first tells.
    #[inline(always)]
    fn front_fit(self, front: u8) -> Fit
        requires value { front ≡ front_of self.registers.now }
        requires upper_bound { front < 255 }
        ensures { result ≡ part_fit_of self.entry.registers.now self.entry.latch self.entry.number 0 front }
    {
        let only = self.only_column();
        if only < u16::from(front) {
            let column = only as u8;
            return one_fit(self.line_fits(column, 0), self.cell(column));
        }
        Fit::Free
    }

    // Which cells of a row fit, from one column on up to below another.
    #[inline(always)]
    fn part_fit(self, from: u8, to: u8) -> Fit
        ensures { result ≡ part_fit_of self.entry.registers.now self.entry.latch self.entry.number from (to - from) }
    {
        let mut best = Fit::Free;
        for column in from..to {
            best = best.join(one_fit(self.cell_fits(column), self.cell(column)));
        }
        best
    }

    // Whether one of the line's last two columns can fit. They latch the first or second address of a line: of the row's own, of the next
    // row's, or of a new frame's; from there counted two back, that is a column round the end. Where a line has one character it is not asked.
    // It has no hint on inlining, nor has line_fits: with one the search is slower.
    fn ends_may_fit(self) -> bool
        ensures { result ≡ false → (x : ℕ) → x ≤ reg self.entry.registers.now 0 → reg self.entry.registers.now 0 < x + 2 → reg self.entry.registers.now 0 < 256 → fits_of self.entry.registers.now self.entry.latch (cell_at self.entry.number x) ≢ true }
    {
        let r = self.registers;
        if r.held[0] == 0 {
            return true;
        }
        if r.by_rows() {
            return from_low(r.start(), self.latch) >= 254;
        }
        (from_base(self.base, self.latch) >= 16382)
            | (from_base(self.next_base(), self.latch) >= 16382)
            | ((self.number == r.held[4]) & (from_base(r.start(), self.latch) >= 16382))
    }

    // Which cells of a row fit: of the columns in front, and of the others. How many there are of both is worked out once for all rows.
    #[inline(always)]
    fn row_fit(self, front: u8, columns: u8) -> Fit
        requires front_value { front ≡ front_of self.registers.now }
        requires front_bound { front < 255 }
        requires columns_value { columns ≡ columns_of self.registers.now }
        ensures { result ≡ row_fit_of self.entry.registers.now self.entry.latch self.entry.number }
    {
        let fit = self.front_fit(front);
        if front < columns && self.ends_may_fit() {
            return fit.join(self.part_fit(front, columns));
        }
        fit
    }
}

// Which cells of the picture fit. A row's base is carried here from the row above it, and handed down.
pub(crate) fn picture_fit(registers: Registers, latch: u16) -> Fit
    ensures { result ≡ fit_of registers latch }
{
    let front = front(registers);
    let columns = columns(registers);
    let mut best = Fit::Free;
    let mut base = first_base(registers);
    for number in 0..rows(registers) {
        let row = Row {
            registers: &registers,
            latch,
            number,
            base,
        };
        best = best.join(row.row_fit(front, columns));
        base = row.next_base();
    }
    best
}
