// Closing the serial line.
ghost use Rattle.std.specs.Prelude.{◌≡◌};
ghost use Rattle.serial_text.specs.Ending.{last_length, last_text_of};

use decimal::{DIGITS, add_decimal};
use line::Line;
use text::Text;

// The room of the last line: a word, a number and the end.
pub const LAST: usize = 4 + DIGITS + 1;

// Closes a line; the last line of the text.
pub fn tell_end(before: Line) -> Text<LAST>
    ensures room { LAST ≡ last_length }
    ensures text { result ≡ last_text_of before }
{
    let called = before.close();
    let mut text = Text::of(b"end ");
    add_decimal(&mut text, u64::from(u8::from(called.ending)));
    text.put(b"\n");
    text
}
