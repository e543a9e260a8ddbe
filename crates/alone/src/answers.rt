// What the controller answers: the body of each of its kinds that has one.
ghost use Rattle.std.specs.Prelude.{◌≡◌};
ghost use Rattle.answer.specs.Answer.{done_of};
ghost use Rattle.controller.specs.Bytes.{time_bytes_of};
ghost use Rattle.alone.specs.Bodies.{read_body_of, strike_body_of};

use answer::Answer;
use basics::{high, low, number};
use controller::{Outputs, Reading};
use pen::Strike;

#[tactic(auto, unfolding(crate::specs::Bodies::read_body_of))]
pub(crate) fn read_answer(kind: u8, r: Reading) -> Answer
    ensures { result ≡ done_of kind (read_body_of r) }
{
    Answer::done(kind, [number(r.driven), r.value, 0, 0, 0, 0])
}

pub(crate) fn time_answer(kind: u8, o: Outputs) -> Answer
    ensures { result ≡ done_of kind (time_bytes_of o) }
{
    let [first, second, third, fourth] = o.bytes();
    Answer::done(kind, [first, second, third, fourth, 0, 0])
}

#[tactic(auto, unfolding(crate::specs::Bodies::strike_body_of))]
pub(crate) fn strike_answer(kind: u8, s: Strike) -> Answer
    ensures { result ≡ done_of kind (strike_body_of s) }
{
    Answer::done(
        kind,
        [high(s.latch), low(s.latch), number(s.inside), 0, 0, 0],
    )
}
