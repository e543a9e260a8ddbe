// A replay on fresh chips.
ghost use Rattle.std.specs.Prelude.{◌≡◌, length};
ghost use Rattle.basics.specs.Lay.{laid_at};
ghost use Rattle.replay.specs.Run.{written_of, returned_of};
ghost use Rattle.batch.specs.Fresh.{fresh_run_of, Bounded};

use bench::Bench;
use replay::{Replayed, replay};

// How many bytes a program takes at most.
pub const MOST: usize = 4096;

// How many answers so many bytes have: one for every four bytes.
pub const ANSWERS: usize = MOST / 4;

// An output in which each of them has its eight bytes.
pub const OUTPUT: usize = ANSWERS * 8;

// Replays a batch on fresh chips into a lent output.
pub fn replay_fresh(batch: &[u8], out: &mut [u8]) -> Replayed
    ensures answer { result ≡ returned_of (fresh_run_of batch.now (length out.old)) }
    ensures output { out.new ≡ laid_at out.old 0 (written_of (fresh_run_of batch.now (length out.old)).answers) }
    ensures batch { batch.exit.now ≡ batch.entry.now }
    ensures bounds { Bounded batch.now out.old out.new result }
{
    replay(batch, out, Bench::fresh())
}
