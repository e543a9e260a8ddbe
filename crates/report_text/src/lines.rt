// Rows of numbers as lines.
ghost use Rattle.std.specs.Prelude.{◌/◌, length};
ghost use Rattle.report.specs.Report.{row};
ghost use Rattle.text.specs.private.Adds.{Adds};
ghost use Rattle.report_text.specs.Lines.{number_of, line_of, lines_of};

use decimal::add_decimal;
use report::ROW;
use text::Text;

// A number, and after it a space, or the end of the line where it is the last.
fn put_number<const N: usize>(text: &mut Text<N>, n: u64, last: bool)
    ensures { Adds N text.old text.new (number_of n last) }
{
    add_decimal(text, n);
    text.put(if last { b"\n" } else { b" " });
}

// Numbers on a line.
pub(crate) fn put_line<const N: usize>(text: &mut Text<N>, numbers: &[u64])
    ensures { Adds N text.old text.new (line_of numbers.now) }
{
    for (i, number) in numbers.iter().enumerate() {
        put_number(text, *number, i + 1 == numbers.len());
    }
}

// The whole rows among some places, each on its line.
pub(crate) fn put_rows<const N: usize>(text: &mut Text<N>, places: &[u64])
    ensures { Adds N text.old text.new (lines_of places.now (length places.now / row)) }
{
    for numbers in places.chunks_exact(ROW) {
        put_line(text, numbers);
    }
}
