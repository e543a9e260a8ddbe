// The controller's events, one function each.
ghost use Rattle.std.specs.Prelude.{◌≡◌};
ghost use Rattle.alone.specs.Events.{on_write, on_read, on_clocks, on_strike, on_reset};

use crate::answers::{read_answer, strike_answer, time_answer};
use answer::Answer;
use controller::Controller;

// The controller after an event or a record, and what is answered.
#[repr(C)]
#[derive(Clone, Copy)]
pub struct Told {
    pub controller: Controller,
    pub answer: Answer,
}

// A write. The functions of this file stay with their events' own fields, as the enum names them, and the record's kind.
#[tactic(auto, unfolding(crate::specs::Events::on_write))]
pub fn on_write(c: Controller, kind: u8, rs: bool, value: u8) -> Told
    ensures { result ≡ on_write c kind rs value }
{
    let controller = c.write(rs, value);
    let answer = Answer::plain(kind, 0);
    Told { controller, answer }
}

#[tactic(auto, unfolding(crate::specs::Events::on_read))]
pub fn on_read(c: Controller, kind: u8, rs: bool) -> Told
    ensures { result ≡ on_read c kind rs }
{
    let reading = c.read(rs);
    let controller = reading.controller;
    let answer = read_answer(kind, reading);
    Told { controller, answer }
}

#[tactic(auto, unfolding(crate::specs::Events::on_clocks))]
pub fn on_clocks(c: Controller, kind: u8, n: u16) -> Told
    ensures { result ≡ on_clocks c kind n }
{
    let controller = c.clock(n);
    let answer = time_answer(kind, controller.outputs());
    Told { controller, answer }
}

#[tactic(auto, unfolding(crate::specs::Events::on_strike))]
pub fn on_strike(c: Controller, kind: u8) -> Told
    ensures { result ≡ on_strike c kind }
{
    let controller = c.strike();
    let answer = strike_answer(kind, controller.pen.newest());
    Told { controller, answer }
}

#[tactic(auto, unfolding(crate::specs::Events::on_reset))]
pub fn on_reset(c: Controller, kind: u8) -> Told
    ensures { result ≡ on_reset c kind }
{
    let controller = c.reset();
    let answer = Answer::plain(kind, 0);
    Told { controller, answer }
}
