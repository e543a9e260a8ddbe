// What the multiplexer and the locator answer: the body of each kind, from what its chip tells, and for kind 9 the refusal too.
#![tactic(auto)]

ghost use Rattle.std.specs.Prelude.{◌≡◌};
ghost use Rattle.answer.specs.Answer.{done_of};
ghost use Rattle.bodies.specs.Bodies.{bus_body_of, shown_body_of, levels_body_of, located_answer_of};

mod told;

use answer::Answer;
use basics::{high, low, number};
use locator::{Cell, Unlocated};
use multiplexer::Shown;
pub use told::{ToldCycle, ToldLevels};

#[tactic(auto, unfolding(crate::specs::Bodies::bus_body_of))]
pub fn bus_answer(kind: u8, c: ToldCycle) -> Answer
    ensures { result ≡ done_of kind (bus_body_of c) }
{
    Answer::done(
        kind,
        [
            c.select,
            c.ticks,
            c.flags,
            c.cell.bank,
            c.cell.row,
            c.cell.column,
        ],
    )
}

#[tactic(auto, unfolding(crate::specs::Bodies::shown_body_of))]
pub fn shown_answer(kind: u8, s: Shown) -> Answer
    ensures { result ≡ done_of kind (shown_body_of s) }
{
    Answer::done(
        kind,
        [
            high(s.address),
            low(s.address),
            s.cell.bank,
            s.cell.row,
            s.cell.column,
            number(s.access),
        ],
    )
}

#[tactic(auto, unfolding(crate::specs::Bodies::levels_body_of))]
pub fn levels_answer(kind: u8, l: ToldLevels) -> Answer
    ensures { result ≡ done_of kind (levels_body_of l) }
{
    Answer::done(kind, [l.edge, l.first, l.count, 0, 0, 0])
}

#[tactic(auto, unfolding(crate::specs::Bodies::located_body_of))]
pub fn located_answer(kind: u8, found: Result<Cell, Unlocated>) -> Answer
    ensures { result ≡ located_answer_of kind found }
{
    match found {
        Ok(cell) => Answer::done(kind, [cell.row, cell.column, 0, 0, 0, 0]),
        Err(why) => Answer::plain(kind, u8::from(why)),
    }
}
