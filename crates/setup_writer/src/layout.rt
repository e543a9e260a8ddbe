// Where the bodies of a setup go.
ghost use Rattle.std.specs.Prelude.{◌≡◌, ◌≤◌};
ghost use Rattle.setup_writer.specs.Write.{given_of};
ghost use Rattle.setup_writer.specs.private.Layout.{count_of, registers_at, control_at, batch_at};

use crate::parts::{pair, size, slice_of};
use setup_file::Setup;

// The number of parts.
pub(crate) fn count(setup: &Setup) -> u8
    ensures is { result ≡ count_of (given_of setup.now) }
    ensures most { result ≤ 3 }
{
    u8::from(setup.registers.is_some())
        + (u8::from(setup.control.is_some()) + u8::from(setup.batch.is_some()))
}

pub(crate) fn registers_at(setup: &Setup) -> u16
    ensures is { result ≡ registers_at (given_of setup.now) }
    ensures most { result ≤ 16 }
{
    5 * u16::from(count(setup)) + 1
}

pub(crate) fn control_at(setup: &Setup) -> u16
    ensures is { result ≡ control_at (given_of setup.now) }
    ensures most { result ≤ 32 }
{
    let registers = slice_of(&setup.registers);
    registers_at(setup) + size(registers) as u16
}

pub(crate) fn batch_at(setup: &Setup) -> u16
    ensures is { result ≡ batch_at (given_of setup.now) }
    ensures most { result ≤ 34 }
{
    let control = pair(setup);
    control_at(setup) + size(slice_of(&control)) as u16
}
