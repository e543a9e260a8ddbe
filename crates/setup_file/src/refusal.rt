// Why a file is no setup, or a setup gets no file.
ghost use Rattle.std.specs.Prelude.{◌≡◌};
ghost use Rattle.setup_file.specs.Refusals.{number_of};

#[derive(Clone, Copy, Debug, PartialEq, Eq)]
pub enum Refusal {
    Contents,
    Kinds,
    Places,
    Bits,
    Room,
}

// Its number in the request.
impl From<Refusal> for u8 {
    ghost from_gives = { λ why number. number ≡ number_of why };

    fn from(why: Refusal) -> u8 {
        match why {
            Refusal::Contents => 13,
            Refusal::Kinds => 14,
            Refusal::Places => 15,
            Refusal::Bits => 16,
            Refusal::Room => 17,
        }
    }
}
