// The writer.
ghost use Rattle.std.specs.Prelude.{◌≡◌, ◌+◌, length};
ghost use Rattle.setup_writer.specs.private.Layout.{count_of, batch_at};
ghost use Rattle.setup_writer.specs.Write.{given_of, bytes_in, clean_part, judged_of, written_of, output_of};

use crate::layout::{batch_at, count};
use crate::parts::size;
use crate::pieces::{bodies, contents};
use setting::is_clean;
use setup_file::{Refusal, Setup};

// The most bytes that a batch may have.
const MOST: usize = 4096;

// Whether the registers, where they are there, have no forbidden bit.
fn clean(setup: &Setup) -> bool
    ensures { result ≡ clean_part (given_of setup.now).registers }
{
    match &setup.registers {
        Some(registers) => is_clean(registers),
        None => true,
    }
}

// How long the file is, or why there is none in so much room.
#[tactic(auto, using(crate::proofs::Judging::questions))]
fn judged(setup: &Setup, room: usize) -> Result<usize, Refusal>
    ensures { let s = given_of setup.now in result ≡ judged_of (count_of s) (length (bytes_in s.batch)) (clean_part s.registers) (batch_at s + length (bytes_in s.batch)) room }
{
    let batch = size(setup.batch);
    if count(setup) == 0 {
        return Err(Refusal::Contents);
    }
    if MOST < batch {
        return Err(Refusal::Places);
    }
    if !clean(setup) {
        return Err(Refusal::Bits);
    }
    let long = usize::from(batch_at(setup)) + batch;
    if room < long {
        return Err(Refusal::Room);
    }
    Ok(long)
}

// Lays the file of a setup at the front of dst and says how long it is, or says why not and changes nothing.
pub fn write(dst: &mut [u8], setup: &Setup) -> Result<usize, Refusal>
    ensures said { result ≡ written_of (given_of setup.now) (length dst.old) }
    ensures laid { dst.new ≡ output_of dst.old (given_of setup.now) }
    ensures kept { setup.exit.now ≡ setup.entry.now }
{
    let long = judged(setup, dst.len())?;
    let end = contents(dst, setup);
    bodies(dst, end, setup);
    Ok(long)
}
