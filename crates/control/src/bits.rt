// The control bits and their names.
ghost use Rattle.std.specs.Prelude.{◌≡◌, ◌<◌};
ghost use Rattle.basics.specs.Bits.{bit};
ghost use Rattle.control.specs.Names.{clear_of, mode_of, f_of, p_of, r0_of, r1_of, m0_of, m1_of, ty_of};

// All sixteen as one number, V0 the lowest bit and TY the highest.
#[derive(Clone, Copy)]
pub struct Control {
    pub bits: u16,
}

impl Control {
    // Every bit clear.
    pub fn clear() -> Control
        ensures { result ≡ clear_of }
    {
        Control { bits: 0 }
    }

    // V2 V1 V0, the display mode.
    pub fn mode(self) -> u8
        ensures { result ≡ mode_of self }
    {
        (self.bits % 8) as u8
    }

    // F6 to F0, where the display starts.
    pub fn f(self) -> u8
        ensures { result ≡ f_of self }
    {
        (self.bits / 8 % 128) as u8
    }

    // Bit k of the sixteen. The six named ones below are bits 10 to 15; each stays a function, since rules and contracts name it.
    fn bit(self, k: u16) -> bool
        requires { k < 16 }
        ensures { result ≡ bit k self.bits }
    {
        self.bits >> k & 1 == 1
    }

    // The page, which stands for A15.
    pub fn p(self) -> bool
        ensures { result ≡ p_of self }
    {
        self.bit(10)
    }

    // The rate: fast where the address allows it.
    pub fn r0(self) -> bool
        ensures { result ≡ r0_of self }
    {
        self.bit(11)
    }

    // The rate: fast everywhere, with no display access and no refresh.
    pub fn r1(self) -> bool
        ensures { result ≡ r1_of self }
    {
        self.bit(12)
    }

    // The memory size, its low bit.
    pub fn m0(self) -> bool
        ensures { result ≡ m0_of self }
    {
        self.bit(13)
    }

    // The memory size, its high bit.
    pub fn m1(self) -> bool
        ensures { result ≡ m1_of self }
    {
        self.bit(14)
    }

    // The map type: RAM nearly everywhere.
    pub fn ty(self) -> bool
        ensures { result ≡ ty_of self }
    {
        self.bit(15)
    }
}
