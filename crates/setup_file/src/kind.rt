// The three kinds of parts.
ghost use Rattle.std.specs.Prelude.{◌≡◌, ok_or};
ghost use Rattle.setup_file.specs.Setup.{kind_of, kind_at};
ghost use Rattle.setup_file.specs.declared.refusal.Refusal.TheVariants as why;

use crate::refusal::Refusal;

// In the order that they have in a file.
#[derive(Clone, Copy, Debug, PartialEq, Eq, PartialOrd, Ord)]
pub enum Kind {
    Registers,
    Control,
    Batch,
}

// The byte that stands for a kind in the contents of a file.
impl From<Kind> for u8 {
    ghost from_gives = { λ kind number. number ≡ kind_of kind };

    fn from(kind: Kind) -> u8 {
        match kind {
            Kind::Registers => 1,
            Kind::Control => 2,
            Kind::Batch => 3,
        }
    }
}

// The kind that a byte stands for. There is no other.
impl TryFrom<u8> for Kind {
    type Error = Refusal;

    ghost try_from_gives = { λ number result. result ≡ ok_or (kind_at number) why.Kinds };

    fn try_from(number: u8) -> Result<Kind, Refusal> {
        match number {
            1 => Ok(Kind::Registers),
            2 => Ok(Kind::Control),
            3 => Ok(Kind::Batch),
            _ => Err(Refusal::Kinds),
        }
    }
}
