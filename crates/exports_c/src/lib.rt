// The archive that programs in other languages link: each call of the crate exports under its name in C, and nothing of its own.
// include/vorstelpijp.h declares them. Calls of one shape stay apart: C knows each by its name.
#![tactic(auto)]

ghost use Rattle.std.specs.Prelude.{◌≡◌};
ghost use Rattle.controller.specs.Chip.{fresh_of, reset_of, write_of, clock_of, strike_of};
ghost use Rattle.controller.specs.Pins.{outputs_of};
ghost use Rattle.controller.specs.Reads.{read_of};
ghost use Rattle.locator.specs.Locate.{locate_of};
ghost use Rattle.pen.specs.Pen.{newest_of};
ghost use Rattle.report.specs.Report.{refusal_of, reported_of};
ghost use Rattle.exports.specs.Plain.{found_of, fetched_of};

use controller::{Controller, Outputs, Reading};
use display::Display;
use exports::Found;
use pen::Strike;

// The power-on state.
#[unsafe(no_mangle)]
pub extern "C" fn controller_fresh() -> Controller
    ensures { result ≡ fresh_of }
{
    exports::controller_fresh()
}

#[unsafe(no_mangle)]
pub extern "C" fn controller_reset(c: Controller) -> Controller
    ensures { result ≡ reset_of c }
{
    exports::controller_reset(c)
}

// A register write, by RS. The three stay apart: C hands them over so.
#[unsafe(no_mangle)]
pub extern "C" fn controller_write(c: Controller, rs: bool, value: u8) -> Controller
    ensures { result ≡ write_of c rs value }
{
    exports::controller_write(c, rs, value)
}

// A read, by RS: what it brings, and the controller after it.
#[unsafe(no_mangle)]
pub extern "C" fn controller_read(c: Controller, rs: bool) -> Reading
    ensures { result ≡ read_of c rs }
{
    exports::controller_read(c, rs)
}

// The outputs at this character.
#[unsafe(no_mangle)]
pub extern "C" fn controller_outputs(c: Controller) -> Outputs
    ensures { result ≡ outputs_of c }
{
    exports::controller_outputs(c)
}

// n character times.
#[unsafe(no_mangle)]
pub extern "C" fn controller_clock(c: Controller, n: u16) -> Controller
    ensures { result ≡ clock_of n c }
{
    exports::controller_clock(c, n)
}

// A pen strike.
#[unsafe(no_mangle)]
pub extern "C" fn controller_strike(c: Controller) -> Controller
    ensures { result ≡ strike_of c }
{
    exports::controller_strike(c)
}

// The newest strike; all zero where there was none.
#[unsafe(no_mangle)]
pub extern "C" fn controller_newest(c: Controller) -> Strike
    ensures { result ≡ newest_of c.pen }
{
    exports::controller_newest(c)
}

// Where the newest strike was.
#[unsafe(no_mangle)]
pub extern "C" fn controller_locate(c: Controller) -> Found
    ensures { result ≡ found_of (locate_of c) }
{
    exports::controller_locate(c)
}

// n display fetches under given control bits.
#[unsafe(no_mangle)]
pub extern "C" fn display_fetches(bits: u16, from: Display, n: u16) -> Display
    ensures { result ≡ fetched_of bits from n }
{
    exports::display_fetches(bits, from, n)
}

// The report on a batch of settings, into places of 64 bits: 0, or the number of the refusal.
#[unsafe(no_mangle)]
pub extern "C" fn settings_report(settings: &[u8], places: &mut [u64]) -> u8
    ensures said { result ≡ refusal_of settings.now places.old }
    ensures laid { places.new ≡ reported_of settings.now places.old }
    ensures kept { settings.exit.now ≡ settings.entry.now }
{
    exports::settings_report(settings, places)
}
