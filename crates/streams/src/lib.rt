// The standard streams, as the programs use them: what cannot be read or written is told, and the program goes on.
#![tactic(auto)]

ghost use Rattle.std.specs.Prelude.{◌≤◌, length, IfOk};

use std::convert::AsSlice;
use std::io;
use std::io::{Read, Write};
use text::said;

// Reads until the buffer is full or nothing more comes, and tells how many bytes came. A failure counts as the end.
pub fn read_full<R: Read>(from: &mut R, buf: &mut [u8]) -> usize
    ensures { result ≤ length buf.new }
{
    let mut n: usize = 0;
    // Stays a `while`: each read gives as many bytes as come.
    while n < buf.len() {
        match from.read(&mut buf[n..]) {
            Ok(0) | Err(_) => return n,
            Ok(got) => n += got,
        }
    }
    n
}

// The same, but for an error where there is no input at all: a read of no bytes asks for that first.
pub fn read_input<R: Read>(from: &mut R, buf: &mut [u8]) -> io::Result<usize>
    ensures { IfOk result (λ n. n ≤ length buf.new) }
{
    from.read(&mut [])?;
    Ok(read_full(from, buf))
}

// Says on standard error that the input could not be read, or that the output could not be written.
pub fn complain(rt: &HostRuntime, readable: bool, written: bool) {
    let unread: &[u8] = b"standard input cannot be read\n";
    let unwritten: &[u8] = b"standard output cannot be written\n";
    let _ = Write::write_all(&mut rt.stderr(), said(!readable, unread));
    let _ = Write::write_all(&mut rt.stderr(), said(!written, unwritten));
}

// Writes what is made of the bytes on standard input, of as many as have room.
pub fn answer<T: AsSlice<u8> + Drop, F: Fn(&[u8]) -> T>(rt: &HostRuntime, room: &mut [u8], make: F)
    requires { F.IsAlwaysCallable make }
{
    let came = read_input(&mut rt.stdin(), room);
    let readable = came.is_ok();
    let text = make(&room[..came.unwrap_or(0)]);
    let written = Write::write_all(&mut rt.stdout(), said(readable, text.as_slice()));
    complain(rt, readable, written.is_ok());
}
