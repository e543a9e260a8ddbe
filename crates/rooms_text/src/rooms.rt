// A replay into an output of a chosen size, shown byte for byte.
ghost use Rattle.std.specs.Prelude.{◌≡◌, ◌≤◌, length};
ghost use Rattle.batch.specs.Fresh.{most_bytes, most_output};
ghost use Rattle.text.specs.private.Adds.{Adds};
ghost use Rattle.rooms_text.specs.Lengths.{room_text_length};
ghost use Rattle.rooms_text.specs.Rooms.{room_of, counts_of, shown_of, room_text_of};

use basics::{high, low, word};
use batch::{OUTPUT, replay_fresh};
use text::{LINE, PER_LINE, Text};

// How many bytes say the output's length.
const HEAD: usize = 2;

// The longest input that is shown.
pub const INPUT: usize = HEAD + batch::MOST;

// The longest text: the line of the counts, and the lines of the longest output.
pub const TEXT: usize = LINE * (1 + OUTPUT / PER_LINE);

// The room that two bytes ask for, at most that of the longest output.
pub fn room_of(hi: u8, lo: u8) -> usize
    ensures is { result ≡ room_of hi lo }
    ensures most { result ≤ most_output }
{
    usize::from(word(hi, lo)).min(OUTPUT)
}

// The counts of a replay, or of a call on a serial line, as eight bytes. Stays a function of three: two programs make it of two types.
pub fn counts(ending: u8, taken: u16, answers: u16) -> [u8; 8]
    ensures { result ≡ counts_of ending taken answers }
{
    [
        ending,
        high(taken),
        low(taken),
        high(answers),
        low(answers),
        0,
        0,
        0,
    ]
}

// A batch replayed on fresh chips into an output: its counts, and then the whole output.
fn shown(text: &mut Text<TEXT>, batch: &[u8], out: &mut [u8])
    requires batch_len_bound { length batch.now ≤ most_bytes }
    requires out_len_bound { length out.old ≤ most_output }
    ensures { Adds TEXT text.old text.new (shown_of batch.now out.old) }
{
    let replayed = replay_fresh(batch, out);
    let told = counts(
        u8::from(replayed.ending),
        replayed.taken as u16,
        replayed.answers as u16,
    );
    text.put_lines(&told);
    text.put_lines(out);
}

// The text for an input.
pub fn room(input: &[u8]) -> Text<TEXT>
    ensures room { TEXT ≡ room_text_length }
    ensures text { result ≡ room_text_of input.now }
    ensures kept { input.exit.now ≡ input.entry.now }
{
    let mut text = Text::new();
    let [high, low, batch @ ..] = input else {
        text.put(b"no room\n");
        return text;
    };
    if batch::MOST < batch.len() {
        text.put(b"too long\n");
        return text;
    }
    let mut out = [0xA5u8; OUTPUT];
    shown(&mut text, batch, &mut out[..room_of(*high, *low)]);
    text
}
