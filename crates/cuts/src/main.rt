// A list of calls on standard input, made in order on one fresh line, each shown by its counts and its output. One byte more than a list may
// have is read, so that a longer one shows. What is made of the bytes, and what is said of a failure, proved functions decide.
#![tactic(auto)]

use cuts_text::{is_list, make, refusal};
use line::Line;
use std::convert::AsSlice;
use std::io;
use std::io::Write;
use streams::{complain, read_input};
use text::{Text, said};

// Call after call, to the end of the list, each printed; an error where one cannot be written. A call takes a byte at least, so there are no
// more calls than bytes.
fn all_calls(rt: &HostRuntime, list: &[u8]) -> io::Result<()> {
    let mut line = Line::fresh();
    let mut rest = list;
    let mut text = Text::new();
    for _ in 0..list.len() {
        let Some(made) = make(line, rest, &mut text) else {
            break;
        };
        Write::write_all(&mut rt.stdout(), text.as_slice())?;
        line = made.line;
        rest = &rest[made.used..];
    }
    Ok(())
}

fn main(rt: HostRuntime) {
    let mut room = [0u8; cuts_text::INPUT + 1];
    let came = read_input(&mut rt.stdin(), &mut room);
    let readable = came.is_ok();
    let input: &[u8] = &room[..came.unwrap_or(0)];
    let listed = is_list(input);
    let refused = Write::write_all(&mut rt.stdout(), said(readable & !listed, &refusal()));
    let shown = all_calls(&rt, said(readable & listed, input));
    complain(&rt, readable, refused.is_ok() & shown.is_ok());
}
