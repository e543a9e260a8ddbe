// Where an address lies in the memory chips.
ghost use Rattle.std.specs.Prelude.{◌≡◌};
ghost use Rattle.multiplexer.specs.private.Side.{Side};
ghost use Rattle.multiplexer.specs.Cells.{side_of, no_cell, cell_of, routed_of};

use basics::number;
use control::Control;

// A place in the memory chips.
#[derive(Clone, Copy)]
pub struct MemoryCell {
    pub bank: u8,
    pub row: u8,
    pub column: u8,
}

// How many rows, and how many columns, one bank has.
#[tactic(auto, using(basics::proofs::Cases::cases), unfolding(crate::specs::Cells::side_of))]
fn side(control: Control) -> u16
    ensures { Side control result }
{
    match (control.m1(), control.m0()) {
        (true, _) => 256,
        (false, true) => 128,
        (false, false) => 64,
    }
}

// The cell of a 16-bit address, for the memory size in force.
#[tactic(auto, unfolding(crate::specs::Cells::cell_of))]
pub(crate) fn cell_at(control: Control, address: u16) -> MemoryCell
    ensures { result ≡ cell_of (side_of control) address }
{
    let side = side(control);
    MemoryCell {
        bank: (address / side / side % 2) as u8,
        row: (address % side) as u8,
        column: (address / side % side) as u8,
    }
}

// What stands for the cell of a cycle that is not for RAM.
pub(crate) fn no_cell() -> MemoryCell
    ensures { result ≡ no_cell }
{
    MemoryCell {
        bank: 0,
        row: 0,
        column: 0,
    }
}

// The processor's address as it goes to the memory: with TY clear, P stands for A15.
#[tactic(auto, using(basics::proofs::Cases::cases), unfolding(crate::specs::Cells::routed_of))]
pub(crate) fn routed(control: Control, address: u16) -> u16
    ensures { result ≡ routed_of control address }
{
    if control.ty() {
        return address;
    }
    u16::from(number(control.p())) * 0x8000 + address % 0x8000
}
