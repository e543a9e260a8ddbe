// Texts that own their bytes.
ghost use Rattle.std.specs.Prelude.{◌≡◌, ◌+◌, ◌-◌, List, [], ℕ, length, take};
ghost use Rattle.text.specs.Hex.{hex_of};
ghost use Rattle.text.specs.Lines.{lines_of};
ghost use Rattle.text.specs.Owned.{appended};

use crate::hex::put_hex;
use crate::lines::put_lines;
use basics::put;
use std::convert::AsSlice;
use std::marker::Model;

// A text of at most N bytes. Behind those that are used stand zeros.
#[derive(Clone, Copy)]
pub struct Text<const N: usize> {
    bytes: [u8; N],
    used: usize,
}

// Clauses see its bytes.
impl<const N: usize> Model for Text<N> {
    ghost use Rattle.std.specs.Prelude.{ℕ, ◌-◌, List, ◌++◌, length, take, replicate};
    ghost use Rattle.text.specs.Owned.{Holds};

    ghost Value = { List ℕ };

    ghost view = { λ t. take t.used t.bytes };

    ghost invariant = { λ t. Holds N t.bytes t.used };

    ghost inverse = { λ l. record { bytes = l ++ replicate (N - length l) 0; used = length l } };

    ghost inverse_ok = { λ t h i. record { bytes = h.filled i; used = h.count i } };
}

impl<const N: usize> Text<N> {
    // A text of no bytes.
    pub fn new() -> Self
        ensures { result ≡ [] }
    {
        Text {
            bytes: [0; N],
            used: 0,
        }
    }

    // A text of these bytes, or of none where they have no room.
    pub fn of(bytes: &[u8]) -> Self
        ensures put { result ≡ appended N [] bytes.now }
        ensures kept { bytes.exit.now ≡ bytes.entry.now }
    {
        let mut text = Text::new();
        text.put(bytes);
        text
    }

    // How many bytes more have room.
    pub fn room_left(&self) -> usize
        ensures left { result ≡ N - length self.now }
        ensures full { length self.now + result ≡ N }
        ensures kept { self.exit.now ≡ self.entry.now }
    {
        N - self.used
    }

    // Puts bytes at the end; where they have no room, changes nothing.
    pub fn put(&mut self, src: &[u8])
        ensures put { self.new ≡ appended N self.old src.now }
        ensures kept { src.exit.now ≡ src.entry.now }
    {
        self.used = put(&mut self.bytes, self.used, src);
    }

    // Puts the digits of bytes at the end, one pair after the other; where they have no room, changes nothing.
    pub fn put_hex(&mut self, src: &[u8])
        ensures put { self.new ≡ appended N self.old (hex_of src.now) }
        ensures kept { src.exit.now ≡ src.entry.now }
    {
        self.used = put_hex(&mut self.bytes, self.used, src);
    }

    // Puts the lines of bytes at the end; where they have no room, changes nothing.
    pub fn put_lines(&mut self, bytes: &[u8])
        ensures put { self.new ≡ appended N self.old (lines_of bytes.now) }
        ensures kept { bytes.exit.now ≡ bytes.entry.now }
    {
        self.used = put_lines(&mut self.bytes, self.used, bytes);
    }

    // Takes all its bytes out; zeros stand in their place.
    pub fn clear(&mut self)
        ensures { self.new ≡ [] }
    {
        self.bytes[..self.used].fill(0);
        self.used = 0;
    }
}

// A text's bytes.
impl<const N: usize> AsSlice<u8> for Text<N> {
    ghost items = { λ t. t };

    fn as_slice(&self) -> &[u8]
        ensures bytes { result.now ≡ self.now }
        ensures place { result.ref_ptr ≡ self.entry.ref_ptr }
        ensures kept { self.exit.now ≡ self.entry.now }
    {
        &self.bytes[..self.used]
    }
}
