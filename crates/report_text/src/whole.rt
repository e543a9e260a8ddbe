// The whole text.
ghost use Rattle.std.specs.Prelude.{◌≡◌, ◌+◌, ◌*◌, ◌≤◌, length};
ghost use Rattle.text.specs.private.Adds.{Adds};
ghost use Rattle.report.specs.Report.{row};
ghost use Rattle.report_text.specs.Text.{text_length, table_of, report_text_of};

use crate::lines::{put_line, put_rows};
use decimal::DIGITS;
use report::{MOST, ROW, report};
use setting::BYTES;
use text::Text;

// The longest input that is reported on.
pub const INPUT: usize = report::INPUT;

// The places of the longest report.
const PLACES: usize = ROW * (MOST + 1);

// The room of a text: every number as long as a number can be, with what stands behind it, and the word in front of the totals.
pub const TEXT: usize = (DIGITS + 1) * PLACES + 6;

// The lines of n rows, and of the row of totals behind them.
fn put_table(text: &mut Text<TEXT>, places: &[u64], n: usize)
    requires { row * (n + 1) ≤ length places.now }
    ensures { Adds TEXT text.old text.new (table_of places.now n) }
{
    let (rows, behind) = places.split_at(ROW * n);
    put_rows(text, rows);
    text.put(b"total ");
    put_line(text, &behind[..ROW]);
}

// The text for an input.
pub fn tell(input: &[u8]) -> Text<TEXT>
    ensures room { TEXT ≡ text_length }
    ensures text { result ≡ report_text_of input.now }
    ensures kept { input.exit.now ≡ input.entry.now }
{
    let mut places = [0u64; PLACES];
    let mut text = Text::new();
    match report(input, &mut places) {
        Ok(()) => put_table(&mut text, &places, input.len() / BYTES),
        Err(_) => text.put(b"refused 10\n"),
    }
    text
}
