// The calls on a line: open, it takes cuts; closed, it refuses every call.
ghost use Rattle.std.specs.Prelude.{◌≡◌, [], ◌++◌, ◌+◌, ◌≤◌, length};
ghost use Rattle.basics.specs.Lay.{laid_at};
ghost use Rattle.replay.specs.Run.{run_of, written_of};
ghost use Rattle.line.specs.Held.{held_of, holding_of};
ghost use Rattle.line.specs.Line.{open_of, empty_of, fresh_line, unmoved_of, called_of, accept_of, accepted_of, close_of};
ghost use Rattle.line.specs.private.Calls.{first_record};

use crate::ending::CallEnding;
use crate::held::Held;
use bench::Bench;
use replay::{Ending, replay, unread_rest};

const ANSWER: usize = 8;

// Both chips, the bytes of an unfinished record, and whether the line is closed.
#[derive(Clone, Copy)]
pub struct Line {
    pub bench: Bench,
    pub held: Held,
    pub closed: bool,
}

// The line after a call, how the call ended, the bytes taken of its own cut, and the answers written.
#[derive(Clone, Copy)]
pub struct Called {
    pub line: Line,
    pub ending: CallEnding,
    pub taken: usize,
    pub answers: usize,
}

// A cut on an open line that holds nothing: the replay of it, and what that leaves.
fn replayed(bench: Bench, cut: &[u8], out: &mut [u8]) -> Called
    ensures answer { result ≡ accept_of (empty_of bench) cut.now out.old }
    ensures output { out.new ≡ accepted_of (empty_of bench) cut.now out.old }
{
    let run = replay(cut, out, bench);
    let line = Line::open(run.bench, Held::Nothing);
    let answers = run.answers;
    match run.ending {
        Ending::NoRoom => Called {
            line,
            ending: CallEnding::NoRoom,
            taken: run.taken,
            answers,
        },
        Ending::Empty | Ending::CutShort => Called {
            answers,
            ..line.waiting(unread_rest(cut, run.taken), cut.len())
        },
    }
}

impl Line {
    // An open line.
    fn open(bench: Bench, held: Held) -> Line
        ensures { result ≡ open_of bench held }
    {
        Line {
            bench,
            held,
            closed: false,
        }
    }

    // An open line with nothing held, on fresh chips.
    pub fn fresh() -> Line
        ensures { result ≡ fresh_line }
    {
        Line::open(Bench::fresh(), Held::Nothing)
    }

    // The line as it is, with an ending.
    fn unmoved(self, ending: CallEnding) -> Called
        ensures { result ≡ called_of (unmoved_of self ending) }
    {
        Called {
            line: self,
            ending,
            taken: 0,
            answers: 0,
        }
    }

    // An open line that holds more bytes and waits for the next, after a cut of so many.
    fn waiting(self, more: &[u8], taken: usize) -> Called
        ensures { result ≡ record { line = open_of self.bench (holding_of (held_of self.held ++ more.now)); ending = CallEnding.Done; taken = taken; answers = 0 } }
    {
        Called {
            line: Line::open(self.bench, self.held.and_bytes(more)),
            ending: CallEnding::Done,
            taken,
            answers: 0,
        }
    }

    // The record that the held bytes begin and the cut ends, replayed by itself.
    fn first(self, cut: &[u8], out: &mut [u8]) -> Bench
        requires { 4 ≤ length (held_of self.held) + length cut.now }
        ensures bench { result ≡ (run_of (first_record (held_of self.held ++ cut.now)) (length out.old) self.bench).bench }
        ensures output { out.new ≡ laid_at out.old 0 (written_of (run_of (first_record (held_of self.held ++ cut.now)) (length out.old) self.bench).answers) }
    {
        let record = self.held.completed(cut);
        replay(&record, out, self.bench).bench
    }

    // A cut that ends the record that an open line holds, or brings a whole one, with room for its answer.
    fn whole(self, lacking: usize, cut: &[u8], out: &mut [u8]) -> Called
        requires held_value { lacking + length (held_of self.held) ≡ 4 }
        requires lacking_in_bounds { lacking ≤ length cut.now }
        requires in_bounds { 8 ≤ length out.old }
        ensures answer { result ≡ accept_of (open_of self.bench self.held) cut.now out.old }
        ensures output { out.new ≡ accepted_of (open_of self.bench self.held) cut.now out.old }
    {
        let after = self.first(cut, out);
        let rest = replayed(after, unread_rest(cut, lacking), &mut out[ANSWER..]);
        Called {
            taken: lacking + rest.taken,
            answers: 1 + rest.answers,
            ..rest
        }
    }

    // Takes a cut, and writes its answers to the front of a lent output. What the output holds past them stays. It is asked in this order:
    // whether the line is closed, whether no record is whole, whether an answer has no room.
    pub fn accept(self, cut: &[u8], out: &mut [u8]) -> Called
        ensures answer { result ≡ accept_of self cut.now out.old }
        ensures output { out.new ≡ accepted_of self cut.now out.old }
        ensures cut { cut.exit.now ≡ cut.entry.now }
    {
        let closed = self.closed;
        let lacking = self.held.lacking();
        if closed {
            self.unmoved(CallEnding::Closed)
        } else if cut.len() < lacking {
            self.waiting(cut, cut.len())
        } else if out.len() < ANSWER {
            self.unmoved(CallEnding::NoRoom)
        } else {
            self.whole(lacking, cut, out)
        }
    }

    // Closes the line. The bytes held stay in it, and nothing reads them any more.
    pub fn close(self) -> Called
        ensures { result ≡ close_of self }
    {
        if self.closed {
            return self.unmoved(CallEnding::Closed);
        }
        let line = Line {
            closed: true,
            ..self
        };
        line.unmoved(self.held.ending())
    }
}
