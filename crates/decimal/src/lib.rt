// Numbers as decimal digits.
#![tactic(auto)]

ghost use Rattle.std.specs.Prelude.{◌≡◌, [], ◌∷◌, ◌+◌, ◌%◌};
ghost use Rattle.basics.specs.Lay.{Writes, behind_of, put_at};
ghost use Rattle.decimal.specs.Decimal.{decimal_in, decimal_of, most_digits};
ghost use Rattle.text.specs.Owned.{appended};
ghost use Rattle.text.specs.private.Adds.{Adds};

use basics::put;
use std::convert::AsSlice;
use text::Text;

// The most digits that a number of 64 bits has.
pub const DIGITS: usize = 20;

// The last digit of a number.
fn last_digit(n: u64) -> [u8; 1]
    ensures { result ≡ (48 + n % 10) ∷ [] }
{
    [b'0' + (n % 10) as u8]
}

// Puts the last k digits at the most of n, the highest first.
fn put_digits(digits: &mut Text<DIGITS>, n: u64, k: usize)
    ensures { Adds most_digits digits.old digits.new (decimal_in k n) }
{
    if k == 0 {
        return;
    }
    if n >= 10 {
        put_digits(digits, n / 10, k - 1);
    }
    digits.put(&last_digit(n));
}

// All digits of n.
fn all_digits(n: u64) -> Text<DIGITS>
    ensures { result ≡ decimal_of n }
{
    let mut digits = Text::new();
    put_digits(&mut digits, n, DIGITS);
    digits
}

// Lays the digits of n from at on and gives the place behind them; where they have no room, changes nothing and gives at back.
pub fn put_decimal(dst: &mut [u8], at: usize, n: u64) -> usize
    ensures place { result ≡ behind_of dst.old at (decimal_of n) }
    ensures laid { dst.new ≡ put_at dst.old at (decimal_of n) }
    ensures next { Writes dst.old dst.new at result (decimal_of n) }
{
    put(dst, at, all_digits(n).as_slice())
}

// Puts the digits of n at the end of a text; where they have no room, changes nothing.
pub fn add_decimal<const N: usize>(text: &mut Text<N>, n: u64)
    ensures { text.new ≡ appended N text.old (decimal_of n) }
{
    text.put(all_digits(n).as_slice());
}
