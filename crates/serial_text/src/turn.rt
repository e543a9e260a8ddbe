// A cut that came off the line, and its answers on lines.
ghost use Rattle.std.specs.Prelude.{◌≡◌, replicate};
ghost use Rattle.serial_text.specs.Turn.{most_cut, turn_length, told_of, turn_text_of};

use answer_lines::{MARKED, add_answers};
use line::{CallEnding, Line};
use text::{PER_LINE, Text};

// How many bytes are read at once, at most.
pub const CUT: usize = 256;

// How many answers they have, at most, with the bytes held before them.
const ANSWERS: usize = CUT / 4;

// An output in which each of these has its eight bytes.
const OUTPUT: usize = PER_LINE * ANSWERS;

// The room of their lines.
pub const TEXT: usize = MARKED * ANSWERS;

// The space that a read is lent: as long as its definition says, to the byte.
pub fn space() -> [u8; CUT]
    ensures { result ≡ replicate most_cut 0 }
{
    [0; CUT]
}

// The line after a cut, how the call ended, the bytes taken, and the text.
#[derive(Clone, Copy)]
pub struct Told {
    pub line: Line,
    pub ending: CallEnding,
    pub taken: usize,
    pub text: Text<TEXT>,
}

// Hands a cut to a line; the text has the lines of its answers.
pub fn tell(before: Line, cut: &[u8]) -> Told
    ensures room { TEXT ≡ turn_length }
    ensures told { result ≡ told_of before cut.now }
    ensures text { result.text ≡ turn_text_of before cut.now }
    ensures kept { cut.exit.now ≡ cut.entry.now }
{
    let mut out = [0u8; OUTPUT];
    let called = before.accept(cut, &mut out);
    let mut text = Text::new();
    add_answers(&mut text, &out[..PER_LINE * called.answers]);
    Told {
        line: called.line,
        ending: called.ending,
        taken: called.taken,
        text,
    }
}
