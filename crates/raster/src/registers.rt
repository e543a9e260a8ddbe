// The sixteen registers and the address register that names one of them.
ghost use Rattle.std.specs.Prelude.{◌≡◌, ◌<◌};
ghost use Rattle.basics.specs.Bits.{bit};
ghost use Rattle.raster.specs.Registers.{reg, start_of, by_rows_of, display_delayed_of, cursor_delayed_of};

use basics::word;

#[repr(C)]
#[derive(Clone, Copy)]
pub struct Registers {
    pub held: [u8; 16],
    pub named: u8,
}

impl Registers {
    // The start address, R12 and R13.
    pub fn start(self) -> u16
        ensures { result ≡ start_of self }
    {
        word(self.held[12], self.held[13])
    }

    // Bit k of the mode register, R8. The three named ones below stay functions, since rules and contracts name them.
    fn mode_bit(self, k: u8) -> bool
        requires { k < 8 }
        ensures { result ≡ bit k (reg self 8) }
    {
        (self.held[8] >> k) % 2 == 1
    }

    // Whether the picture is addressed by row and column.
    pub fn by_rows(self) -> bool
        ensures { result ≡ by_rows_of self }
    {
        self.mode_bit(2)
    }

    // Whether the display enable pin comes a character late.
    pub fn display_delayed(self) -> bool
        ensures { result ≡ display_delayed_of self }
    {
        self.mode_bit(4)
    }

    // Whether the cursor pin does.
    pub fn cursor_delayed(self) -> bool
        ensures { result ≡ cursor_delayed_of self }
    {
        self.mode_bit(5)
    }
}
