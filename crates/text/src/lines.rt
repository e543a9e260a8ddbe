// Bytes on lines, eight to a line, as hex digits.
ghost use Rattle.std.specs.Prelude.{◌≡◌, ◌+◌, ◌≤◌, ◌<◌, min, length};
ghost use Rattle.basics.specs.Lay.{Writes, behind_of, put_at};
ghost use Rattle.text.specs.Lines.{per_line, line_of, rows_of, lines_of, line_count};

use crate::hex::{has_room_for, put_hex};
use basics::put;

// How many bytes stand on a line.
pub const PER_LINE: usize = 8;

// How long a line is: two digits for each byte, and its end.
pub const LINE: usize = 2 * PER_LINE + 1;

fn line(dst: &mut [u8], at: usize, bytes: &[u8]) -> usize
    ensures { Writes dst.old dst.new at result (line_of bytes.now) }
{
    let end = put_hex(dst, at, bytes);
    put(dst, end, b"\n")
}

// Where the line ends whose bytes begin at from.
fn line_end(from: usize, count: usize) -> usize
    requires { from < count }
    ensures { result ≡ min (from + per_line) count }
{
    if count - from < PER_LINE {
        return count;
    }
    from + PER_LINE
}

// The first n lines.
fn lay_lines(dst: &mut [u8], at: usize, bytes: &[u8], n: usize) -> usize
    requires { n ≤ line_count (length bytes.now) }
    ensures { Writes dst.old dst.new at result (rows_of line_of n bytes.now) }
{
    let mut q = at;
    for i in 0..n {
        let from = PER_LINE * i;
        let to = line_end(from, bytes.len());
        q = line(dst, q, &bytes[from..to]);
    }
    q
}

// Lays the lines of the bytes from at on and gives the place behind them; where they have no room, changes nothing and gives at back.
pub fn put_lines(dst: &mut [u8], at: usize, bytes: &[u8]) -> usize
    ensures place { result ≡ behind_of dst.old at (lines_of bytes.now) }
    ensures laid { dst.new ≡ put_at dst.old at (lines_of bytes.now) }
    ensures kept { bytes.exit.now ≡ bytes.entry.now }
    ensures next { Writes dst.old dst.new at result (lines_of bytes.now) }
{
    let n = bytes.len().div_ceil(PER_LINE);
    if has_room_for(dst.len(), at, bytes.len(), n) {
        return lay_lines(dst, at, bytes, n);
    }
    at
}
