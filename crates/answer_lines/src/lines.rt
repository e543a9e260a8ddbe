// Answers on lines.
ghost use Rattle.std.specs.Prelude.{◌≡◌, ◌*◌, ◌≤◌, length};
ghost use Rattle.basics.specs.Lay.{Writes};
ghost use Rattle.text.specs.Lines.{per_line, rows_of};
ghost use Rattle.answer_lines.specs.Lines.{odd_of};
ghost use Rattle.answer_lines.specs.Marked.{answer_of, marked_of, behind_lines, put_lines, WritesLines, with_lines};

use basics::{has_room, put};
use std::convert::AsSlice;
use text::{PER_LINE, Text};

// How long a line is at most: digits, the mark and the end.
pub const MARKED: usize = text::LINE + 4;

// Whether an answer's bytes get the old program's mark.
fn is_odd(answer: &[u8]) -> bool
    requires { length answer.now ≡ per_line }
    ensures { result ≡ odd_of (answer_of answer.now) }
{
    (answer[0] == 6) & (answer[4] % 2 == 1) & (1 <= answer[2]) & (answer[2] <= 6)
}

// An answer's digits, with the mark where it is due.
fn line(answer: &[u8]) -> Text<MARKED>
    requires { length answer.now ≡ per_line }
    ensures { result ≡ marked_of answer.now }
{
    let mut line = Text::new();
    line.put_hex(answer);
    let end: &[u8] = if is_odd(answer) { b" odd\n" } else { b"\n" };
    line.put(end);
    line
}

// The lines of the first n answers.
fn lines(text: &mut [u8], p: usize, answers: &[u8], n: usize) -> usize
    requires { per_line * n ≤ length answers.now }
    ensures { Writes text.old text.new p result (rows_of marked_of n answers.now) }
{
    let mut q = p;
    for i in 0..n {
        let from = PER_LINE * i;
        q = put(text, q, line(&answers[from..from + PER_LINE]).as_slice());
    }
    q
}

// Lays a line for each whole answer among some bytes from at on, and gives the place behind them; where lines that all have the mark would
// have no room, changes nothing and gives at back.
pub fn put_answers(text: &mut [u8], at: usize, answers: &[u8]) -> usize
    ensures place { result ≡ behind_lines text.old at answers.now }
    ensures laid { text.new ≡ put_lines text.old at answers.now }
    ensures kept { answers.exit.now ≡ answers.entry.now }
    ensures next { WritesLines text.old text.new at result answers.now }
{
    let n = answers.len() / PER_LINE;
    if text.len() / MARKED < n {
        return at;
    }
    if has_room(text.len(), at, MARKED * n) {
        return lines(text, at, answers, n);
    }
    at
}

// Puts a line for each whole answer among some bytes at the end of a text; where lines that all have the mark would have no room, changes
// nothing.
pub fn add_answers<const N: usize>(text: &mut Text<N>, answers: &[u8])
    ensures put { text.new ≡ with_lines N text.old answers.now }
    ensures kept { answers.exit.now ≡ answers.entry.now }
{
    if text.room_left() / MARKED < answers.len() / PER_LINE {
        return;
    }
    for answer in answers.chunks_exact(PER_LINE) {
        text.put(line(answer).as_slice());
    }
}
