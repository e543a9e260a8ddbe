// The light pen: the last strike since the reset, and whether its latch is still to be read.
ghost use Rattle.std.specs.Prelude.{◌≡◌};
ghost use Rattle.pen.specs.Pen.{no_pen, struck_of, emptied_of, holds_of, newest_of, unread_of};

// What a strike latched, and whether it fell in the picture.
#[repr(C)]
#[derive(Clone, Copy, Default)]
pub struct Strike {
    pub latch: u16,
    pub inside: bool,
}

// Stays a strike with a flag beside it, and no Option: C reads this struct.
#[repr(C)]
#[derive(Clone, Copy, Default)]
pub struct Pen {
    // all zero where there was none
    pub last: Strike,
    // whether there was a strike since the reset
    pub any: bool,
    // L: a strike whose latch has not been read
    pub full: bool,
}

impl Pen {
    // A pen that has not struck.
    #[tactic(auto, unfolding(crate::specs::Pen::no_pen))]
    pub fn none() -> Pen
        ensures { result ≡ no_pen }
    {
        Pen::default()
    }

    // The pen after a strike.
    #[tactic(auto, unfolding(crate::specs::Pen::struck_of))]
    pub fn struck(self, strike: Strike) -> Pen
        ensures { result ≡ struck_of self strike }
    {
        Pen {
            last: strike,
            any: true,
            full: true,
        }
    }

    // The pen after its latch was read.
    #[tactic(auto, unfolding(crate::specs::Pen::emptied_of))]
    pub fn emptied(self) -> Pen
        ensures { result ≡ emptied_of self }
    {
        Pen {
            full: false,
            ..self
        }
    }

    // Whether it holds a strike.
    #[tactic(auto, unfolding(crate::specs::Pen::holds_of))]
    pub fn holds(self) -> bool
        ensures { result ≡ holds_of self }
    {
        self.any
    }

    // The newest strike; all zero where it holds none.
    #[tactic(auto, unfolding(crate::specs::Pen::newest_of))]
    pub fn newest(self) -> Strike
        ensures { result ≡ newest_of self }
    {
        self.last
    }

    // L.
    #[tactic(auto, unfolding(crate::specs::Pen::unread_of))]
    pub fn unread(self) -> bool
        ensures { result ≡ unread_of self }
    {
        self.full
    }
}
