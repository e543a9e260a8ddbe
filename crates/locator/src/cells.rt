// The picture's cells: how many rows and columns there are.
ghost use Rattle.std.specs.Prelude.{◌≡◌, ◌<◌};
ghost use Rattle.locator.specs.Cells.{columns_of, rows_of};
ghost use Rattle.locator.specs.private.Search.{front_of};

use raster::Registers;

#[repr(C)]
#[derive(Clone, Copy)]
pub struct Cell {
    pub row: u8,
    pub column: u8,
}

// Stays beside rows: one line each, and a helper would hide by which registers each goes.
pub(crate) fn columns(r: Registers) -> u8
    ensures { result ≡ columns_of r }
{
    r.held[1].min(r.held[0].saturating_add(1))
}

pub(crate) fn rows(r: Registers) -> u8
    ensures { result ≡ rows_of r }
{
    r.held[6].min(r.held[4].saturating_add(1))
}

// How many columns of a row stand two or more before the line's end.
pub(crate) fn front(r: Registers) -> u8
    ensures value { result ≡ front_of r }
    ensures upper_bound { result < 255 }
{
    columns(r).min(r.held[0].saturating_sub(1))
}
