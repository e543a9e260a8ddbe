// Counters that wrap at a width.
ghost use Rattle.std.specs.Prelude.{◌≡◌, ◌^◌};
ghost use Rattle.basics.specs.Width.{bits_of, counted_of};

// The widths of the controller's counters: line and field five bits, row seven, column eight, base fourteen. There is no other, so a
// counter cannot be given a width that the chip lacks.
#[derive(Clone, Copy)]
pub enum Width {
    Five,
    Seven,
    Eight,
    Fourteen,
}

impl Width {
    // How many values a counter of this width takes.
    fn values(self) -> u32
        ensures { result ≡ 2 ^ bits_of self }
    {
        match self {
            Width::Five => 32,
            Width::Seven => 128,
            Width::Eight => 256,
            Width::Fourteen => 16384,
        }
    }

    // A counter of this width at x, moved on by a step.
    pub fn counted(self, x: u16, step: u16) -> u16
        ensures { result ≡ counted_of self x step }
    {
        let sum = (x as u32) + (step as u32);
        (sum % self.values()) as u16
    }
}
