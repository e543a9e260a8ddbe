// One bus cycle: what it selects, how long it lasts, and the cell that it reaches.
ghost use Rattle.std.specs.Prelude.{◌≡◌};
ghost use Rattle.multiplexer.specs.Bus.{is_ram_of, select_of, is_slow_of, ticks_of, is_barred_of, ram_cell_of, flags_of, told_cell_of, cycle_of};

use crate::cells::{MemoryCell, cell_at, no_cell, routed};
use basics::number;
use control::Control;

// The selects of the $FF00 block, 32 addresses each.
const BLOCK_SELECTS: [u8; 8] = [4, 5, 6, 7, 7, 7, 7, 2];

// What a cycle shows: the device select, its length in ticks of the crystal, its cell if it is for RAM, whether the control bits are a
// barred pair, and whether it writes a control bit.
// The select stays a number: it is the one that the chip's pins S2, S1 and S0 show, for the decoder behind them.
#[derive(Clone, Copy)]
pub struct Cycle {
    pub select: u8,
    pub ticks: u8,
    pub cell: Option<MemoryCell>,
    pub barred: bool,
    pub control_write: bool,
}

impl Cycle {
    // RAM, barred pair and control write as one number. Stays a sum by hand: three facts are packed, and no conversion of one does that.
    #[tactic(auto, unfolding(crate::specs::Bus::flags_of))]
    pub fn flags(self) -> u8
        ensures { result ≡ flags_of self }
    {
        let ram = number(self.cell.is_some());
        let barred = number(self.barred);
        let write = number(self.control_write);
        ram + 2 * barred + 4 * write
    }

    // The cell that an answer tells, zero where the cycle is not for RAM.
    pub fn told_cell(self) -> MemoryCell
        ensures { result ≡ told_cell_of self }
    {
        self.cell.unwrap_or(no_cell())
    }
}

// Whether the address is RAM.
#[tactic(auto, unfolding(crate::specs::Bus::is_ram_of))]
fn is_ram(control: Control, address: u16) -> bool
    ensures { result ≡ is_ram_of control address }
{
    address < 0x8000 || control.ty() && address < 0xFF00
}

// The device that the cycle selects.
#[tactic(auto, using(basics::proofs::Cases::cases), unfolding(crate::specs::Bus::select_of))]
fn select(control: Control, address: u16, read: bool) -> u8
    ensures { result ≡ select_of control address read }
{
    match address {
        0xFF00.. => BLOCK_SELECTS[usize::from((address - 0xFF00) / 32)],
        _ if is_ram(control, address) => if read { 0 } else { 7 },
        ..0xA000 => 1,
        0xA000..0xC000 => 2,
        _ => 3,
    }
}

// The addresses that stay slow while R0 alone is set.
#[tactic(auto, unfolding(crate::specs::Bus::is_slow_of))]
fn is_slow(address: u16) -> bool
    ensures { result ≡ is_slow_of address }
{
    address < 0x8000 || 0xFF00 <= address && address < 0xFF20
}

// How long the cycle lasts, in ticks of the crystal.
#[tactic(auto, using(basics::proofs::Cases::cases), unfolding(crate::specs::Bus::ticks_of))]
fn ticks(control: Control, address: u16) -> u8
    ensures { result ≡ ticks_of control address }
{
    if control.r1() || control.r0() && !is_slow(address) {
        8
    } else {
        16
    }
}

// Whether the control bits are a pair that the chip bars.
#[tactic(auto, unfolding(crate::specs::Bus::is_barred_of))]
fn is_barred(control: Control) -> bool
    ensures { result ≡ is_barred_of control }
{
    control.ty() && (control.r1() || control.r0())
}

// The cell of a RAM cycle.
#[tactic(auto, using(basics::proofs::Cases::cases), unfolding(crate::specs::Bus::ram_cell_of))]
fn ram_cell(control: Control, address: u16) -> Option<MemoryCell>
    ensures { result ≡ ram_cell_of control address }
{
    if is_ram(control, address) {
        Some(cell_at(control, routed(control, address)))
    } else {
        None
    }
}

// All that a cycle shows, judged with the given control bits.
#[tactic(auto, unfolding(crate::specs::Bus::cycle_of))]
pub(crate) fn judged(control: Control, address: u16, read: bool) -> Cycle
    ensures { result ≡ cycle_of control address read }
{
    Cycle {
        select: select(control, address, read),
        ticks: ticks(control, address),
        cell: ram_cell(control, address),
        barred: is_barred(control),
        control_write: control::is_control_write(address, read),
    }
}
