// Bits and bytes of a number.
ghost use Rattle.std.specs.Prelude.{◌≡◌, ◌*◌, ◌≤◌};
ghost use Rattle.basics.specs.Bits.{num, word_of, high_of, low_of};

// A yes or no as 1 or 0.
pub fn number(yes: bool) -> u8
    ensures { result ≡ num yes }
{
    u8::from(yes)
}

// What a flag adds to a byte of flags: its weight where it is set, else 0.
pub fn flag(set: bool, weight: u8) -> u8
    ensures is { result ≡ num set * weight }
    ensures most { result ≤ weight }
{
    if set { weight } else { 0 }
}

// The number that two bytes name, the high one first.
pub fn word(high: u8, low: u8) -> u16
    ensures { result ≡ word_of high low }
{
    u16::from_be_bytes([high, low])
}

// Its high byte.
pub fn high(x: u16) -> u8
    ensures { result ≡ high_of x }
{
    let [high, _] = x.to_be_bytes();
    high
}

// Its low byte.
pub fn low(x: u16) -> u8
    ensures { result ≡ low_of x }
{
    let [_, low] = x.to_be_bytes();
    low
}
