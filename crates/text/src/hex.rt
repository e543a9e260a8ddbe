// Hex digits.
ghost use Rattle.std.specs.Prelude.{◌≡◌, ◌+◌, ◌*◌, ◌<◌, leb};
ghost use Rattle.basics.specs.Lay.{Writes, behind_of, put_at};
ghost use Rattle.text.specs.Hex.{digit_of, pair_of, hex_of};

use basics::{has_room, put};

// The digit of a number below 16.
fn digit(n: u8) -> u8
    requires { n < 16 }
    ensures { result ≡ digit_of n }
{
    match n {
        0..=9 => b'0' + n,
        _ => b'a' + (n - 10),
    }
}

// The two digits of a byte.
fn pair(b: u8) -> [u8; 2]
    ensures { result ≡ pair_of b }
{
    [digit(b / 16), digit(b % 16)]
}

// Lays the digits of src one pair after the other.
fn lay_hex(dst: &mut [u8], at: usize, src: &[u8]) -> usize
    ensures { Writes dst.old dst.new at result (hex_of src.now) }
{
    let mut q = at;
    for byte in src {
        q = put(dst, q, &pair(*byte));
    }
    q
}

// Whether the digits of so many bytes, and so many ends of lines, have room from at on in a buffer of room bytes.
pub(crate) fn has_room_for(room: usize, at: usize, bytes: usize, ends: usize) -> bool
    ensures { result ≡ leb (at + (2 * bytes + ends)) room }
{
    if room / 2 < bytes {
        return false;
    }
    has_room(room - 2 * bytes, at, ends)
}

// Lays the digits of src from at on and gives the place behind them; where they have no room, changes nothing and gives at back.
pub fn put_hex(dst: &mut [u8], at: usize, src: &[u8]) -> usize
    ensures place { result ≡ behind_of dst.old at (hex_of src.now) }
    ensures laid { dst.new ≡ put_at dst.old at (hex_of src.now) }
    ensures kept { src.exit.now ≡ src.entry.now }
    ensures next { Writes dst.old dst.new at result (hex_of src.now) }
{
    if has_room_for(dst.len(), at, src.len(), 0) {
        return lay_hex(dst, at, src);
    }
    at
}
