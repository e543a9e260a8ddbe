// A call of the list, made and shown.
ghost use Rattle.std.specs.Prelude.{◌≡◌, ◌+◌, ◌≤◌, IfSome, length, replicate};
ghost use Rattle.batch.specs.Fresh.{most_output};
ghost use Rattle.line.specs.Line.{outcome_of, closing_of};
ghost use Rattle.text.specs.private.Adds.{Adds};
ghost use Rattle.cuts_text.specs.Asked.{call_head};
ghost use Rattle.cuts_text.specs.Made.{call_text_length, made_of, call_text_of, close_text_of, cut_text_of};
ghost use Rattle.cuts_text.specs.private.Within.{most_long, shown_as};

use crate::asked::{Asked, HEAD, first};
use batch::OUTPUT;
use line::Line;
use rooms_text::counts;
use text::Text;

// The longest text of a call.
pub const TEXT: usize = rooms_text::TEXT;

// The line after a call, and how many bytes of the list said it.
#[derive(Clone, Copy)]
pub struct Made {
    pub line: Line,
    pub used: usize,
}

// Closes the line.
fn closed(text: &mut Text<TEXT>, before: Line) -> Made
    ensures made { result ≡ shown_as (closing_of before).line 1 }
    ensures text { Adds TEXT text.old text.new (close_text_of before) }
{
    let called = before.close();
    text.put_lines(&counts(u8::from(called.ending), 0, 0));
    Made {
        line: called.line,
        used: 1,
    }
}

// Hands a cut to the line, into an output.
fn accepted(text: &mut Text<TEXT>, before: Line, cut: &[u8], out: &mut [u8]) -> Made
    requires cut_len_bound { length cut.now ≤ most_long }
    requires out_len_bound { length out.old ≤ most_output }
    ensures made { result ≡ shown_as (outcome_of before cut.now (length out.old)).line (call_head + length cut.now) }
    ensures text { Adds TEXT text.old text.new (cut_text_of before cut.now out.old) }
{
    let called = before.accept(cut, out);
    let ending = u8::from(called.ending);
    let told = counts(ending, called.taken as u16, called.answers as u16);
    text.put_lines(&told);
    text.put_lines(out);
    Made {
        line: called.line,
        used: HEAD + cut.len(),
    }
}

// Hands a cut to the line, into an output of so much room.
fn handed(text: &mut Text<TEXT>, before: Line, cut: &[u8], room: usize) -> Made
    requires cut_len_bound { length cut.now ≤ most_long }
    requires room_le_most_output { room ≤ most_output }
    ensures made { result ≡ shown_as (outcome_of before cut.now room).line (call_head + length cut.now) }
    ensures text { Adds TEXT text.old text.new (cut_text_of before cut.now (replicate room 0xA5)) }
{
    let mut out = [0xA5u8; OUTPUT];
    accepted(text, before, cut, &mut out[..room])
}

// Makes the call that some bytes begin with. The text holds the call's text then, and what it held is gone. Where there is no call, nothing is
// done, and it holds nothing. It stays lent: a text that is given is zeroed and copied with each call.
pub fn make(before: Line, rest: &[u8], text: &mut Text<TEXT>) -> Option<Made>
    ensures room { TEXT ≡ call_text_length }
    ensures made { result ≡ made_of before rest.now }
    ensures laid { text.new ≡ call_text_of before rest.now }
    ensures kept { rest.exit.now ≡ rest.entry.now }
    ensures within { IfSome result (λ made. made.used ≤ length rest.now) }
{
    text.clear();
    match first(rest)? {
        Asked::Close => Some(closed(text, before)),
        Asked::Cut { room, long } => {
            let end = HEAD + usize::from(long);
            Some(handed(text, before, &rest[HEAD..end], room))
        }
    }
}
