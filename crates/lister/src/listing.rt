// The listing of a batch.
ghost use Rattle.std.specs.Prelude.{◌≡◌, ◌≤◌, []};
ghost use Rattle.text.specs.private.Adds.{Adds};
ghost use Rattle.lister.specs.Listing.{end_of, batch_listing_of, listing_of};
ghost use Rattle.lister.specs.Lengths.{listing_length};

use answer_lines::{MARKED, add_answers};
use batch::replay_fresh;
use text::{PER_LINE, Text};

// The longest input that is listed.
pub const INPUT: usize = batch::MOST;

// How long the last line is.
const END: usize = 6;

// The room of a listing: for every answer a line as long as a line can be, and the ending.
pub const TEXT: usize = MARKED * batch::ANSWERS + END;

// The line of the ending number, which is one digit.
fn put_end(text: &mut Text<TEXT>, ending: u8)
    requires { ending ≤ 9 }
    ensures { Adds TEXT text.old text.new (end_of ending) }
{
    text.put(&[b'e', b'n', b'd', b' ', b'0' + ending, b'\n']);
}

// The listing of a batch, on fresh chips and with room for every answer, in a text that holds nothing yet.
fn batch_listing(text: &mut Text<TEXT>, batch: &[u8])
    requires { text.old ≡ [] }
    ensures { text.new ≡ batch_listing_of batch.now }
{
    let mut out = [0u8; batch::OUTPUT];
    let replayed = replay_fresh(batch, &mut out);
    add_answers(text, &out[..PER_LINE * replayed.answers]);
    put_end(text, u8::from(replayed.ending));
}

// The text for an input.
pub fn list(input: &[u8]) -> Text<TEXT>
    ensures room { TEXT ≡ listing_length }
    ensures text { result ≡ listing_of input.now }
    ensures kept { input.exit.now ≡ input.entry.now }
{
    let mut text = Text::new();
    if INPUT < input.len() {
        text.put(b"too long\n");
        return text;
    }
    batch_listing(&mut text, input);
    text
}
