// The replay: record after record, until the batch is empty, is cut short, or its next answer has no room.
ghost use Rattle.std.specs.Prelude.{◌≡◌, ◌*◌, ◌<◌};
ghost use Rattle.basics.specs.Lay.{put_at};
ghost use Rattle.answer.specs.Answer.{bytes_of};
ghost use Rattle.replay.specs.Run.{ended_of, replay_of, output_of};

use crate::ending::Ending;
use answer::Answer;
use basics::put;
use bench::Bench;
use record::Record;

const RECORD: usize = 4;

const ANSWER: usize = 8;

// Both chips, why the replay ended, the bytes taken and the answers written.
#[derive(Clone, Copy)]
pub struct Replayed {
    pub bench: Bench,
    pub ending: Ending,
    pub taken: usize,
    pub answers: usize,
}

// Writes an answer's bytes at a place of the output, which is the caller's: what it holds besides is promised.
fn write(out: &mut [u8], at: usize, answer: Answer)
    ensures { out.new ≡ put_at out.old at (bytes_of answer) }
{
    put(out, at, &answer.bytes());
}

// What a replay that ends here returns: four bytes are taken for each answer.
fn ended(bench: Bench, ending: Ending, answers: usize) -> Replayed
    requires { 4 * answers < usize.MAX }
    ensures { result ≡ ended_of bench ending (4 * answers) answers }
{
    Replayed {
        bench,
        ending,
        taken: RECORD * answers,
        answers,
    }
}

// Replays a batch into a lent output. What the output held past the answers stays.
pub fn replay(batch: &[u8], out: &mut [u8], bench: Bench) -> Replayed
    ensures answer { result ≡ replay_of batch.now out.old bench }
    ensures output { out.new ≡ output_of batch.now out.old bench }
    ensures batch { batch.exit.now ≡ batch.entry.now }
{
    let mut bench = bench;
    let mut rest = batch;
    let mut answers: usize = 0;
    // Stays a loop by itself, and no `for`: the three ends are told apart where it stands.
    while let Some((sent, behind)) = rest.split_first_chunk::<RECORD>() {
        if out.len() - ANSWER * answers < ANSWER {
            return ended(bench, Ending::NoRoom, answers);
        }
        let stepped = bench.step(Record::from(*sent));
        write(out, ANSWER * answers, stepped.answer);
        bench = stepped.bench;
        rest = behind;
        answers += 1;
    }
    if rest.is_empty() {
        ended(bench, Ending::Empty, answers)
    } else {
        ended(bench, Ending::CutShort, answers)
    }
}
