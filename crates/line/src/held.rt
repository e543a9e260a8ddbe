// The bytes of a record that is not whole yet.
ghost use Rattle.std.specs.Prelude.{◌≡◌, ◌∷◌, [], ◌++◌, ◌+◌, ◌≤◌, length};
ghost use Rattle.line.specs.Held.{held_of, holding_of, closing_ending};
ghost use Rattle.line.specs.private.Calls.{first_record};

use crate::ending::CallEnding;

// A fourth byte cannot be held: there is no way to say it.
#[derive(Clone, Copy)]
pub enum Held {
    Nothing,
    One(u8),
    Two(u8, u8),
    Three(u8, u8, u8),
}

impl Held {
    // How many bytes the record lacks.
    pub(crate) fn lacking(self) -> usize
        ensures { result + length (held_of self) ≡ 4 }
    {
        match self {
            Held::Nothing => 4,
            Held::One(_) => 3,
            Held::Two(..) => 2,
            Held::Three(..) => 1,
        }
    }

    // How a line closes.
    pub(crate) fn ending(self) -> CallEnding
        ensures { result ≡ closing_ending self }
    {
        match self {
            Held::Nothing => CallEnding::Done,
            Held::One(_) | Held::Two(..) | Held::Three(..) => CallEnding::CutShort,
        }
    }

    // One byte more, where there is a place for it.
    #[tactic(auto, unfolding(crate::specs::Held::holding_of))]
    fn and_byte(self, byte: u8) -> Held
        ensures { result ≡ holding_of (held_of self ++ (byte ∷ [])) }
    {
        match self {
            Held::Nothing => Held::One(byte),
            Held::One(a) => Held::Two(a, byte),
            Held::Two(a, b) => Held::Three(a, b, byte),
            Held::Three(..) => self,
        }
    }

    // More bytes, as far as there are places for them.
    pub(crate) fn and_bytes(self, bytes: &[u8]) -> Held
        ensures { result ≡ holding_of (held_of self ++ bytes.now) }
    {
        let mut held = self;
        for byte in bytes {
            held = held.and_byte(*byte);
        }
        held
    }

    // The record that these bytes begin and a cut ends.
    pub(crate) fn completed(self, cut: &[u8]) -> [u8; 4]
        requires { 4 ≤ length (held_of self) + length cut.now }
        ensures { result ≡ first_record (held_of self ++ cut.now) }
    {
        match self {
            Held::Nothing => [cut[0], cut[1], cut[2], cut[3]],
            Held::One(a) => [a, cut[0], cut[1], cut[2]],
            Held::Two(a, b) => [a, b, cut[0], cut[1]],
            Held::Three(a, b, c) => [a, b, c, cut[0]],
        }
    }
}
