// The seven numbers of one frame.
ghost use Rattle.std.specs.Prelude.{◌≡◌, ◌+◌, ◌*◌, ◌≤◌};
ghost use Rattle.frames.specs.Places.{frame_times};
ghost use Rattle.tally.specs.Tally.{AtMost, tally_of};

use crate::pass::{Pass, columns_before};
use crate::tally::Tally;
use controller::Controller;
use raster::Registers;

// The lines of a frame, by R4, R9 and R5.
fn frame_lines(r4: u8, r9: u8, r5: u8) -> u32
    ensures is { result ≡ (r4 + 1) * (r9 + 1) + r5 }
    ensures most { result ≤ 65791 }
{
    ((r4 as u32) + 1) * ((r9 as u32) + 1) + (r5 as u32)
}

// The character times of so many lines, by R0.
fn line_times(r0: u8, lines: u32) -> u32
    requires { lines ≤ 65791 }
    ensures is { result ≡ (r0 + 1) * lines }
    ensures most { result ≤ 16842496 }
{
    ((r0 as u32) + 1) * lines
}

// The character times of a frame. Whatever bytes the registers hold, they are fewer than 2^25.
fn frame_times(r: Registers) -> u32
    ensures is { result ≡ frame_times r }
    ensures most { result ≤ 16842496 }
{
    line_times(r.held[0], frame_lines(r.held[4], r.held[9], r.held[5]))
}

// What the controller does from here on in as many character times as a frame has. Each turn passes the columns that are left of a line
// but its last, and then takes one step. No number is above fourteen for each of at most 16,842,496 times.
pub fn count_frame(c: Controller) -> Tally
    ensures is { result ≡ tally_of c }
    ensures most { AtMost 235794944 result }
{
    let r = c.regs;
    let n = frame_times(r);
    let mut p = Pass::begin(c);
    // Stays a `while`: a turn passes as many times as are left of a line.
    let mut t: u32 = 0;
    while t < n {
        let k = columns_before(p.scan.column, r.held[0], n - t - 1);
        p = p.columns(r, k).turn(r);
        t += k + 1;
    }
    p.tally
}
