// The calls for programs in other languages, each by value and over plain data: the controller's, the locator's answer as numbers, the
// display counter, and the report on a batch of settings. The crate exports_c hands them on to C. Calls of one shape stay apart: C knows
// each by its name.
#![tactic(auto)]

ghost use Rattle.std.specs.Prelude.{◌≡◌};
ghost use Rattle.controller.specs.Chip.{fresh_of, reset_of, write_of, clock_of, strike_of};
ghost use Rattle.controller.specs.Pins.{outputs_of};
ghost use Rattle.controller.specs.Reads.{read_of};
ghost use Rattle.locator.specs.Locate.{locate_of};
ghost use Rattle.pen.specs.Pen.{newest_of};
ghost use Rattle.report.specs.Report.{refusal_of, reported_of};
ghost use Rattle.exports.specs.Plain.{found_of, fetched_of};

use control::Control;
use controller::{Controller, Outputs, Reading};
use display::Display;
use multiplexer::Multiplexer;
use pen::Strike;

// A locator's answer: its number in the table of refusals, and the cell, zeros where it names none.
#[repr(C)]
#[derive(Clone, Copy)]
pub struct Found {
    pub refusal: u8,
    pub row: u8,
    pub column: u8,
}

// The power-on state.
pub fn controller_fresh() -> Controller
    ensures { result ≡ fresh_of }
{
    Controller::fresh()
}

pub fn controller_reset(c: Controller) -> Controller
    ensures { result ≡ reset_of c }
{
    c.reset()
}

// A register write, by RS. The three stay apart: C hands them over so.
pub fn controller_write(c: Controller, rs: bool, value: u8) -> Controller
    ensures { result ≡ write_of c rs value }
{
    c.write(rs, value)
}

// A read, by RS: what it brings, and the controller after it.
pub fn controller_read(c: Controller, rs: bool) -> Reading
    ensures { result ≡ read_of c rs }
{
    c.read(rs)
}

// The outputs at this character.
pub fn controller_outputs(c: Controller) -> Outputs
    ensures { result ≡ outputs_of c }
{
    c.outputs()
}

// n character times.
pub fn controller_clock(c: Controller, n: u16) -> Controller
    ensures { result ≡ clock_of n c }
{
    c.clock(n)
}

// A pen strike.
pub fn controller_strike(c: Controller) -> Controller
    ensures { result ≡ strike_of c }
{
    c.strike()
}

// The newest strike; all zero where there was none.
pub fn controller_newest(c: Controller) -> Strike
    ensures { result ≡ newest_of c.pen }
{
    c.pen.newest()
}

// Where the newest strike was.
pub fn controller_locate(c: Controller) -> Found
    ensures { result ≡ found_of (locate_of c) }
{
    match locator::locate(c) {
        Ok(cell) => Found {
            refusal: 0,
            row: cell.row,
            column: cell.column,
        },
        Err(why) => Found {
            refusal: u8::from(why),
            row: 0,
            column: 0,
        },
    }
}

// n display fetches under given control bits.
pub fn display_fetches(bits: u16, from: Display, n: u16) -> Display
    ensures { result ≡ fetched_of bits from n }
{
    let m = Multiplexer {
        control: Control { bits },
        display: from,
        ..Multiplexer::fresh()
    };
    m.fetches(n).display
}

// The report on a batch of settings, into places of 64 bits: 0, or the number of the refusal.
#[tactic(auto, unfolding(report::specs::Report::refusal_of))]
pub fn settings_report(settings: &[u8], places: &mut [u64]) -> u8
    ensures said { result ≡ refusal_of settings.now places.old }
    ensures laid { places.new ≡ reported_of settings.now places.old }
    ensures kept { settings.exit.now ≡ settings.entry.now }
{
    match report::report(settings, places) {
        Ok(()) => 0,
        Err(why) => u8::from(why),
    }
}
