// Whole records on a controller that stands alone.
ghost use Rattle.std.specs.Prelude.{◌≡◌};
ghost use Rattle.alone.specs.Records.{idle, on_event, alone_of, write_record_of, clock_record_of, strike_record_of};

use crate::events::{Told, on_clocks, on_read, on_reset, on_strike, on_write};
use answer::Answer;
use controller::Controller;
use record::{Event, Record, decode};

// An event that is for another chip.
fn idle(controller: Controller, kind: u8) -> Told
    ensures { result ≡ idle controller kind }
{
    let answer = Answer::plain(kind, 0);
    Told { controller, answer }
}

#[tactic(auto, using(basics::proofs::Cases::cases), unfolding(crate::specs::Records::on_event))]
fn on_event(c: Controller, kind: u8, event: Event) -> Told
    ensures { result ≡ on_event c kind event }
{
    match event {
        Event::Write { rs, value } => on_write(c, kind, rs, value),
        Event::Read { rs } => on_read(c, kind, rs),
        Event::Clocks { n } => on_clocks(c, kind, n),
        Event::Strike => on_strike(c, kind),
        Event::Reset { multiplexer: false } => on_reset(c, kind),
        _ => idle(c, kind),
    }
}

#[tactic(auto, unfolding(crate::specs::Records::alone_of, crate::specs::Records::on_decoded))]
fn alone(controller: Controller, sent: Record) -> Told
    ensures { result ≡ alone_of sent.kind controller sent.hi sent.lo sent.value }
{
    match decode(sent) {
        Ok(event) => on_event(controller, sent.kind, event),
        Err(refusal) => {
            let answer = Answer::plain(sent.kind, u8::from(refusal));
            Told { controller, answer }
        }
    }
}

// The three below stay functions of three bytes: the first byte of a record, its kind, is what each is named for.

// A record of kind 1: a write.
pub fn write(controller: Controller, hi: u8, lo: u8, value: u8) -> Told
    ensures { result ≡ write_record_of controller hi lo value }
{
    alone(controller, Record::from([1, hi, lo, value]))
}

// A record of kind 3: character clocks.
pub fn clock(controller: Controller, hi: u8, lo: u8, value: u8) -> Told
    ensures { result ≡ clock_record_of controller hi lo value }
{
    alone(controller, Record::from([3, hi, lo, value]))
}

// A record of kind 4: a pen strike.
pub fn strike(controller: Controller, hi: u8, lo: u8, value: u8) -> Told
    ensures { result ≡ strike_record_of controller hi lo value }
{
    alone(controller, Record::from([4, hi, lo, value]))
}
