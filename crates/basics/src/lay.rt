// Bytes laid at a place of a lent buffer.
ghost use Rattle.std.specs.Prelude.{◌≡◌, ◌+◌, ◌≤◌, leb, length};
ghost use Rattle.basics.specs.Lay.{laid_at, behind_of, put_at, Writes};

// Lays the bytes of src where the caller has shown that they have room.
fn lay(dst: &mut [u8], at: usize, src: &[u8])
    requires { at + length src.now ≤ length dst.old }
    ensures { dst.new ≡ laid_at dst.old at src.now }
{
    for i in 0..src.len() {
        dst[at + i] = src[i];
    }
}

// Whether count bytes from at on have room in a buffer of room bytes.
pub fn has_room(room: usize, at: usize, count: usize) -> bool
    ensures { result ≡ leb (at + count) room }
{
    count <= room && at <= room - count
}

// Lays the bytes of src from at on and gives the place behind them; where they have no room, changes nothing and gives at back.
// Stays a buffer with a place beside it: the room is the caller's own, and what it holds besides is part of what is promised.
pub fn put(dst: &mut [u8], at: usize, src: &[u8]) -> usize
    ensures place { result ≡ behind_of dst.old at src.now }
    ensures laid { dst.new ≡ put_at dst.old at src.now }
    ensures kept { src.exit.now ≡ src.entry.now }
    ensures next { Writes dst.old dst.new at result src.now }
{
    if has_room(dst.len(), at, src.len()) {
        lay(dst, at, src);
        return at + src.len();
    }
    at
}
