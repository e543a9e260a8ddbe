// The table of kinds. A new kind is a new last line of `decode`.
ghost use Rattle.std.specs.Prelude.{◌≡◌, Err};
ghost use Rattle.record.specs.Decode.{checked_of, decode_of, number_of};

use crate::event::Event;
use crate::sent::Record;
use basics::word;

// Why a record is no event: its kind is none, or one of its fields is not allowed.
#[derive(Clone, Copy, PartialEq, Eq)]
pub enum Refusal {
    Kind,
    Field,
}

// The number that a refused record is answered with.
impl From<Refusal> for u8 {
    ghost from_gives = { λ refusal number. number ≡ number_of (Err refusal) };

    fn from(refusal: Refusal) -> u8 {
        match refusal {
            Refusal::Kind => 1,
            Refusal::Field => 2,
        }
    }
}

// The refusal number of a decoded record; 0 where it is an event.
pub fn number(decoded: Result<Event, Refusal>) -> u8
    ensures { result ≡ number_of decoded }
{
    decoded.err().map_or(0, u8::from)
}

// An event whose fields have been looked at.
fn checked(fields: bool, event: Event) -> Result<Event, Refusal>
    ensures { result ≡ checked_of fields event }
{
    fields.then_some(event).ok_or(Refusal::Field)
}

pub fn decode(sent: Record) -> Result<Event, Refusal>
    ensures { result ≡ decode_of sent.kind sent.hi sent.lo sent.value }
{
    let Record {
        kind,
        hi,
        lo,
        value,
    } = sent;
    let n = word(hi, lo);
    let address = n;
    let up = lo == 1;
    let set = value == 1;
    let read = set;
    // lo is a level; all fields are 0
    let level = (hi == 0) & (lo <= 1);
    let empty = (hi == 0) & (lo == 0) & (value == 0);
    match kind {
        1 => checked(level, Event::Write { rs: up, value }),
        2 => checked(level & (value == 0), Event::Read { rs: up }),
        3 => checked(value == 0, Event::Clocks { n }),
        4 => checked(empty, Event::Strike),
        5 => checked(level & (value == 0), Event::Reset { multiplexer: up }),
        6 => checked(value <= 1, Event::Cycle { address, read }),
        7 => checked(value == 0, Event::Fetches { n }),
        8 => checked(level & (value <= 1), Event::Levels { hs: up, da0: set }),
        9 => checked(empty, Event::Locate),
        _ => Err(Refusal::Kind),
    }
}
