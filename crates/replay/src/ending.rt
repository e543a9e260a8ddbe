// Why a replay ended.
ghost use Rattle.std.specs.Prelude.{◌≡◌};
ghost use Rattle.replay.specs.Ending.{ending_number};

// The batch is empty, or one to three bytes of it are left, or its next answer has no room.
#[derive(Clone, Copy, PartialEq, Eq)]
pub enum Ending {
    Empty,
    CutShort,
    NoRoom,
}

// The number that a replay ends with.
impl From<Ending> for u8 {
    ghost from_gives = { λ ending number. number ≡ ending_number ending };

    fn from(ending: Ending) -> u8 {
        match ending {
            Ending::Empty => 0,
            Ending::CutShort => 3,
            Ending::NoRoom => 4,
        }
    }
}
