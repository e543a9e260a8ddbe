// What is true of the character that the scan is at.
ghost use Rattle.std.specs.Prelude.{◌≡◌, ◌+◌, ◌%◌};
ghost use Rattle.basics.specs.Bits.{word_of, high_of, low_of};
ghost use Rattle.facts.specs.Facts.{picture_of, address_of, ma_of, latch_of, blink_of, cursor_line_of, cursor_of, facts_of};

use basics::{Width, high, low, word};
use raster::{Registers, Scan};

// The two facts that a delayed pin shows one character late.
#[repr(C)]
#[derive(Clone, Copy)]
pub struct Facts {
    pub picture: bool,
    pub cursor: bool,
}

impl Facts {
    #[tactic(auto, unfolding(crate::specs::Facts::facts_of))]
    pub fn at(r: Registers, s: Scan) -> Facts
        ensures { result ≡ facts_of r s }
    {
        Facts {
            picture: picture(r, s),
            cursor: cursor(r, s),
        }
    }
}

#[tactic(auto, unfolding(crate::specs::Facts::picture_of))]
pub fn picture(r: Registers, s: Scan) -> bool
    ensures { result ≡ picture_of r s }
{
    !s.adjusting & (s.row < r.held[6]) & (s.column < r.held[1])
}

// The row added to the start's high part and the column to its low byte, each wrapping by itself.
fn by_row_and_column(start: u16, row: u8, column: u8) -> u16
    ensures { result ≡ word_of ((high_of start + row) % 64) ((low_of start + column) % 256) }
{
    word(
        high(start).wrapping_add(row) % 64,
        low(start).wrapping_add(column),
    )
}

// The address at a row and a column, with the frame's start and the row's base.
#[tactic(auto, using(basics::proofs::Cases::cases), unfolding(crate::specs::Facts::address_of))]
fn address(r: Registers, start: u16, base: u16, row: u8, column: u8) -> u16
    ensures { result ≡ address_of r start base row column }
{
    if r.by_rows() {
        by_row_and_column(start, row, column)
    } else {
        Width::Fourteen.counted(base, column as u16)
    }
}

// MA at this character.
#[tactic(auto, unfolding(crate::specs::Facts::ma_of))]
pub fn ma(r: Registers, s: Scan) -> u16
    ensures { result ≡ ma_of r s }
{
    address(r, s.start, s.base, s.row, s.column)
}

// What a strike at this character latches: MA two character times on.
#[tactic(auto, unfolding(crate::specs::Facts::latch_of))]
pub fn latch(r: Registers, s: Scan) -> u16
    ensures { result ≡ latch_of r s }
{
    ma(r, s.next(r).next(r))
}

// Whether the cursor's blink shows it, by R10 and the field.
#[tactic(auto, using(basics::proofs::Cases::cases), unfolding(crate::specs::Facts::blink_of))]
fn blink(r10: u8, field: u8) -> bool
    ensures { result ≡ blink_of r10 field }
{
    match (r10 / 64 % 2 == 1, r10 / 32 % 2 == 1) {
        (false, never) => !never,
        (true, false) => field / 8 % 2 == 0,
        (true, true) => field / 16 % 2 == 0,
    }
}

#[tactic(auto, unfolding(crate::specs::Facts::cursor_line_of))]
fn cursor_line(r: Registers, line: u8) -> bool
    ensures { result ≡ cursor_line_of r line }
{
    (r.held[10] % 32 <= line) & (line <= r.held[11])
}

// Whether the cursor shows at this character.
#[tactic(auto, unfolding(crate::specs::Facts::cursor_of))]
pub fn cursor(r: Registers, s: Scan) -> bool
    ensures { result ≡ cursor_of r s }
{
    picture(r, s)
        & (ma(r, s) == word(r.held[14], r.held[15]))
        & cursor_line(r, s.line)
        & blink(r.held[10], s.field)
}
