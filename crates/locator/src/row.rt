// A row of the picture, and whether a strike in one of its cells would leave the latch that is searched for.
ghost use Rattle.std.specs.Prelude.{◌≡◌};
ghost use Rattle.basics.specs.Width.{counted_of};
ghost use Rattle.basics.specs.declared.width.Width.TheVariants.{Fourteen};
ghost use Rattle.raster.specs.Registers.{reg, row_base_of};
ghost use Rattle.locator.specs.Cells.{cell_at, cell_scan_of, fits_of};
ghost use Rattle.locator.specs.private.Search.{line_fits_of};

use crate::cells::Cell;
use raster::{Registers, Scan};

// The search comes from the row above with the address that this one begins with, so that nothing has to be multiplied.
// The registers are lent to it: by value they would be copied in every row.
#[derive(Clone, Copy)]
pub(crate) struct Row<'a> {
    pub(crate) registers: &'a Registers,
    pub(crate) latch: u16,
    pub(crate) number: u8,
    pub(crate) base: u16,
    ghost begins: { base ≡ row_base_of registers.now number },
}

// The address that the first row begins with.
pub(crate) fn first_base(r: Registers) -> u16
    ensures { result ≡ row_base_of r 0 }
{
    r.start() % 16384
}

impl Row<'_> {
    // The address that the next row begins with: R1 on.
    #[inline(always)]
    pub(crate) fn next_base(self) -> u16
        ensures { result ≡ counted_of Fourteen self.entry.base (reg self.entry.registers.now 1) }
    {
        self.base.wrapping_add(u16::from(self.registers.held[1])) % 16384
    }

    #[inline(always)]
    pub(crate) fn cell(self, column: u8) -> Cell
        ensures { result ≡ cell_at self.entry.number column }
    {
        Cell {
            row: self.number,
            column,
        }
    }

    // The place of the scan in a cell, on one of its lines.
    #[inline(always)]
    fn cell_scan(self, column: u8, line: u8) -> Scan
        ensures { result ≡ cell_scan_of self.entry.registers.now (cell_at self.entry.number column) line }
    {
        Scan {
            column,
            line,
            row: self.number,
            base: self.base,
            start: self.registers.start(),
            field: 0,
            adjusting: false,
        }
    }

    // Whether a strike in a cell, on one of its lines, would leave the latch.
    #[tactic(auto, unfolding(crate::specs::private::Search::line_fits_of, crate::specs::Cells::cell_latch_of))]
    pub(crate) fn line_fits(self, column: u8, line: u8) -> bool
        ensures { result ≡ line_fits_of self.entry.registers.now self.entry.latch (cell_at self.entry.number column) line }
    {
        facts::latch(*self.registers, self.cell_scan(column, line)) == self.latch
    }

    // Whether a strike in a cell, on any of its lines, would leave the latch. The last line may lead to another row, and those before it
    // latch alike; but where a line has one character, the one before the last may lead there too.
    #[inline(always)]
    pub(crate) fn cell_fits(self, column: u8) -> bool
        ensures { result ≡ fits_of self.entry.registers.now self.entry.latch (cell_at self.entry.number column) }
    {
        let last = self.registers.held[9];
        let near = self.line_fits(column, last.saturating_sub(1)) | self.line_fits(column, last);
        if self.registers.held[0] == 0 {
            return near | self.line_fits(column, 0);
        }
        near
    }
}
