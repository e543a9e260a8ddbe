// How a call on a line ends.
ghost use Rattle.std.specs.Prelude.{◌≡◌};
ghost use Rattle.line.specs.CallEnding.{call_ending_number};

// The call did all that it was to do, a record was never whole, an answer has no room, or the line was closed before.
#[derive(Clone, Copy, PartialEq, Eq)]
pub enum CallEnding {
    Done,
    CutShort,
    NoRoom,
    Closed,
}

// The number that a call ends with.
impl From<CallEnding> for u8 {
    ghost from_gives = { λ ending number. number ≡ call_ending_number ending };

    fn from(ending: CallEnding) -> u8 {
        match ending {
            CallEnding::Done => 0,
            CallEnding::CutShort => 3,
            CallEnding::NoRoom => 4,
            CallEnding::Closed => 12,
        }
    }
}
