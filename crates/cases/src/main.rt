// The settled cases a to z, run through the public calls. A line for each: its letter, the frame's length in character times, picture,
// adjusting, MA, latch, and the locator's refusal, row and column. What is run, and what is seen of it, are definitions of the crate
// `settled`, whose table is proved; only the printing has no contract.
#![tactic(auto)]

ghost use Rattle.std.specs.Prelude.{◌%◌, true, false, [], ◌∷◌, ◌≡◌, get_or, fold};
ghost use Rattle.controller.specs.Chip.{write_of};
ghost use Rattle.frames.specs.Places.{frame_times};
ghost use Rattle.locator.specs.Locate.{refusal_of, cell_of};
ghost use Rattle.settled.specs.Cases.{cases, set_of, reached_of, seen_of};

use basics::number;
use controller::Controller;
use locator::{Cell, Unlocated, locate};

// R0, R1, R4, R5, R6, R8, R9, R12, R13, clocks, and 1 for a strike. Stay rows of bytes: these are the lists that the proved table has, and as
// structs with named fields a dozen lines each; whoever reads one names its parts by a pattern.
const CASES: [[u8; 11]; 26] = [
    [3, 2, 1, 1, 2, 0, 1, 0, 0, 0, 0],
    [0, 0, 0, 0, 0, 0, 0, 0, 0, 0, 0],
    [255, 0, 127, 31, 0, 0, 31, 0, 0, 0, 0],
    [3, 2, 1, 1, 2, 0, 1, 0, 0, 1, 1],
    [3, 2, 1, 1, 2, 0, 1, 0, 0, 2, 1],
    [3, 2, 1, 1, 2, 0, 1, 0, 0, 8, 1],
    [3, 2, 1, 1, 2, 0, 1, 0, 0, 16, 0],
    [255, 129, 127, 0, 127, 0, 0, 0, 0, 0, 1],
    [255, 130, 127, 0, 127, 0, 0, 0, 0, 0, 1],
    [255, 130, 127, 0, 127, 0, 0, 0, 0, 126, 1],
    [3, 4, 2, 2, 3, 0, 2, 0, 100, 6, 1],
    [3, 4, 2, 2, 3, 0, 2, 0, 100, 7, 1],
    [3, 4, 2, 2, 3, 0, 2, 0, 100, 10, 1],
    [3, 4, 2, 2, 3, 0, 2, 0, 100, 11, 1],
    [3, 4, 2, 2, 3, 0, 2, 0, 100, 34, 1],
    [3, 4, 2, 2, 3, 0, 2, 0, 100, 35, 1],
    [3, 4, 2, 0, 3, 0, 2, 0, 100, 34, 1],
    [3, 4, 2, 0, 3, 0, 0, 0, 100, 11, 1],
    [3, 4, 2, 0, 2, 0, 2, 0, 100, 22, 1],
    [3, 4, 2, 0, 2, 0, 2, 0, 100, 23, 1],
    [0, 1, 2, 1, 3, 0, 3, 0, 0, 10, 1],
    [1, 2, 1, 1, 2, 0, 1, 0, 0, 6, 1],
    [3, 4, 2, 0, 3, 0, 0, 0, 100, 2, 1],
    [3, 4, 2, 0, 3, 4, 0, 63, 100, 2, 1],
    [9, 5, 1, 0, 2, 4, 0, 0, 254, 1, 1],
    [2, 2, 1, 0, 2, 0, 1, 0, 0, 0, 1],
];

// One case, from 0 for a; past 25 they start again.
fn numbered(i: u8) -> [u8; 11]
    ensures { result ≡ get_or cases (i % 26) [] }
{
    CASES[(i % 26) as usize]
}

// The controller when registers are named and written, one after the other.
fn written(c: Controller, pairs: &[(u8, u8)]) -> Controller
    ensures { result ≡ fold (λ d p. write_of (write_of d false p.0) true p.1) c pairs.now }
{
    pairs.iter().fold(
        c,
        |d, (register, value)| d.write(false, *register).write(true, *value),
    )
}

// The controller after a reset with a case's registers.
#[tactic(auto, unfolding(settled::specs::Cases::written_of, frames::specs::Calls::after_calls, frames::specs::Calls::after_call))]
fn set(k: [u8; 11]) -> Controller
    ensures { result ≡ set_of k }
{
    let [r0, r1, r4, r5, r6, r8, r9, r12, r13, ..] = k;
    let pairs = [
        (0, r0),
        (1, r1),
        (4, r4),
        (5, r5),
        (6, r6),
        (8, r8),
        (9, r9),
        (12, r12),
        (13, r13),
    ];
    written(Controller::fresh(), &pairs).reset()
}

// Character times until the field counts, one by one.
fn frame_length(k: [u8; 11]) -> u32
    ensures { result ≡ frame_times (set_of k).regs }
{
    let start = set(k);
    let mut c = start.clock(1);
    let mut t: u32 = 1;
    // Stays a `while`: it goes on until the field changes.
    while c.scan.field == start.scan.field {
        c = c.clock(1);
        t += 1;
    }
    t
}

// Where a case's clocks and its strike lead.
#[tactic(auto, using(basics::proofs::Cases::cases), unfolding(settled::specs::Cases::reached_of))]
fn reached(k: [u8; 11], c: Controller) -> Controller
    ensures { result ≡ reached_of k c }
{
    let [.., clocks, strike] = k;
    let there = c.clock(u16::from(clocks));
    if strike == 1 { there.strike() } else { there }
}

// The locator's refusal, row and column, zeros where there is none.
fn told(found: Result<Cell, Unlocated>) -> [u8; 3]
    ensures { result ≡ refusal_of found ∷ (cell_of found).row ∷ (cell_of found).column ∷ [] }
{
    match found {
        Ok(cell) => [0, cell.row, cell.column],
        Err(why) => [u8::from(why), 0, 0],
    }
}

// What is seen of a case.
#[tactic(auto, unfolding(settled::specs::Cases::looked_of, settled::specs::Cases::seen_of))]
fn seen(k: [u8; 11]) -> [u32; 8]
    ensures { result ≡ seen_of k }
{
    let frame = frame_length(k);
    let c = reached(k, set(k));
    let o = c.outputs();
    let [refusal, row, column] = told(locate(c));
    [
        frame,
        u32::from(number(o.picture)),
        u32::from(number(c.scan.adjusting)),
        u32::from(o.ma),
        u32::from(c.pen.newest().latch),
        u32::from(refusal),
        u32::from(row),
        u32::from(column),
    ]
}

// An output that cannot be written changes nothing: each case is run to its end.
fn show(rt: &HostRuntime, numbers: [u32; 8]) {
    for number in numbers {
        print!(rt; " {number}").is_ok();
    }
    println!(rt).is_ok();
}

fn main(rt: HostRuntime) {
    for i in 0..26 {
        let letter = char::from(b'a' + i);
        print!(rt; "{letter}").is_ok();
        show(&rt, seen(numbered(i)));
    }
}
