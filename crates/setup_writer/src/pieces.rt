// The pieces of a file, each laid behind what the output holds already. Each gives the place behind what it laid. They
// stay writers into a buffer with a place beside it: the output is the caller's, and what it holds behind the file is promised.
ghost use Rattle.std.specs.Prelude.{◌≡◌, ◌≤◌, ◌<◌, ◌^◌, [], ◌∷◌, length, option_copied};
ghost use Rattle.basics.specs.Lay.{Writes};
ghost use Rattle.setup_file.specs.Setup.{kind_of, most_batch};
ghost use Rattle.setup_writer.specs.Write.{given_of, bytes_in};
ghost use Rattle.setup_writer.specs.private.Layout.{entry_in, contents_of, bodies_in};

use crate::layout::{batch_at, control_at, count, registers_at};
use crate::parts::{pair, slice_of};
use basics::{high, low, put};
use setup_file::{Kind, Setup};

// The bytes of a part that is there.
fn bytes(dst: &mut [u8], p: usize, part: Option<&[u8]>) -> usize
    ensures { Writes dst.old dst.new p result (bytes_in (option_copied part.entry)) }
{
    match part {
        Some(body) => put(dst, p, body),
        None => p,
    }
}

// The entry of a part that is there.
fn entry(dst: &mut [u8], p: usize, kind: Kind, offset: u16, part: Option<&[u8]>) -> usize
    requires { length (bytes_in (option_copied part)) < 2 ^ 16 }
    ensures { Writes dst.old dst.new p result (entry_in (kind_of kind) offset (option_copied part.entry)) }
{
    match part {
        Some(body) => {
            let size = body.len() as u16;
            let entry = [
                u8::from(kind),
                high(offset),
                low(offset),
                high(size),
                low(size),
            ];
            put(dst, p, &entry)
        }
        None => p,
    }
}

// The contents.
pub(crate) fn contents(dst: &mut [u8], setup: &Setup) -> usize
    requires { length (bytes_in (given_of setup.now).batch) ≤ most_batch }
    ensures { Writes dst.old dst.new 0 result (contents_of (given_of setup.now)) }
{
    let control = pair(setup);
    let first = put(dst, 0, &[count(setup)]);
    let second = entry(
        dst,
        first,
        Kind::Registers,
        registers_at(setup),
        slice_of(&setup.registers),
    );
    let third = entry(
        dst,
        second,
        Kind::Control,
        control_at(setup),
        slice_of(&control),
    );
    entry(dst, third, Kind::Batch, batch_at(setup), setup.batch)
}

// The bodies.
pub(crate) fn bodies(dst: &mut [u8], p: usize, setup: &Setup) -> usize
    ensures { Writes dst.old dst.new p result (bodies_in (given_of setup.now)) }
{
    let control = pair(setup);
    let second = bytes(dst, p, slice_of(&setup.registers));
    let third = bytes(dst, second, slice_of(&control));
    bytes(dst, third, setup.batch)
}
