// The records on standard input, as they come: what is there is read, its answers are printed at once, and at the end of the input the line
// is closed. What is made of the bytes, and what is said of a failure, proved functions decide.
#![tactic(auto)]

use line::Line;
use serial_text::{space, tell, tell_end};
use std::convert::AsSlice;
use std::io::{Read, Write};
use streams::complain;
use text::said;

// What stops the turns: the input's end, or a read or a write that fails.
#[derive(Clone, Copy, PartialEq, Eq)]
enum Stop {
    Ended,
    Unread,
    Unwritten,
}

// Reads once, prints the answers to what came, and leaves the line as it is after it.
fn one_turn(rt: &HostRuntime, line: &mut Line) -> Result<(), Stop> {
    let mut cut = space();
    let n = rt.stdin().read(&mut cut).map_err(|_| Stop::Unread)?;
    let told = tell(*line, &cut[..n]);
    *line = told.line;
    Write::write_all(&mut rt.stdout(), told.text.as_slice()).map_err(|_| Stop::Unwritten)?;
    if n == 0 { Err(Stop::Ended) } else { Ok(()) }
}

// Turn after turn, until one stops them. A loop has to be shown to end, and no input has to: so there are only as many turns as no run
// uses up.
fn all_turns(rt: &HostRuntime, line: &mut Line) -> Result<(), Stop> {
    for _ in 0..u64::MAX {
        one_turn(rt, line)?;
    }
    Ok(())
}

fn main(rt: HostRuntime) {
    let mut line = Line::fresh();
    let stop = all_turns(&rt, &mut line);
    let last = tell_end(line);
    let shown = said(stop == Err(Stop::Ended), last.as_slice());
    let written = Write::write_all(&mut rt.stdout(), shown).is_ok();
    let all_written = written & (stop != Err(Stop::Unwritten));
    complain(&rt, stop != Err(Stop::Unread), all_written);
}
