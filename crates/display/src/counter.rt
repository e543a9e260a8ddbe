// The counter, and what a fetch does to it.
ghost use Rattle.std.specs.Prelude.{◌≡◌, ◌+◌, ◌%◌, ◌≤◌};
ghost use Rattle.display.specs.Counter.{start_of, with_b, advanced, count_y, flip_b4, count_x, fetch_of, fetches_of};
ghost use Rattle.display.specs.private.Run.{Run};

use crate::modes::Mode;

// The display address B, and the dividers X (between B3 and B4) and Y (between B4 and B5).
#[repr(C)]
#[derive(Clone, Copy)]
pub struct Display {
    pub b: u16,
    pub x: u8,
    pub y: u8,
}

impl Display {
    // All zero.
    pub fn start() -> Display
        ensures { result ≡ start_of }
    {
        Display { b: 0, x: 0, y: 0 }
    }

    // B5..B15 moved on by one.
    #[tactic(auto, unfolding(crate::specs::Counter::advanced))]
    fn advance(mut self) -> Display
        ensures { result ≡ advanced self }
    {
        self.b = self.b.wrapping_add(32);
        self
    }

    // A fall of B4. Stays beside count_x: the two share one comparison, and each has its own divider and goes on to other bits.
    #[tactic(auto, using(basics::proofs::Cases::cases), unfolding(crate::specs::Counter::count_y))]
    pub(crate) fn count_y(mut self, mode: Mode) -> Display
        ensures { result ≡ count_y mode self }
    {
        if u16::from(self.y) + 1 < u16::from(mode.y) {
            self.y += 1;
            return self;
        }
        self.y = 0;
        self.advance()
    }

    // B4 flips, and falls where it was 1.
    #[tactic(auto, using(basics::proofs::Cases::cases), unfolding(crate::specs::Counter::flip_b4))]
    fn flip_b4(mut self, mode: Mode) -> Display
        ensures { result ≡ flip_b4 mode self }
    {
        if self.b / 16 % 2 == 1 {
            self.b -= 16;
            return self.count_y(mode);
        }
        self.b += 16;
        self
    }

    // A fall of B3.
    #[tactic(auto, using(basics::proofs::Cases::cases), unfolding(crate::specs::Counter::count_x))]
    pub(crate) fn count_x(mut self, mode: Mode) -> Display
        ensures { result ≡ count_x mode self }
    {
        if u16::from(self.x) + 1 < u16::from(mode.x) {
            self.x += 1;
            return self;
        }
        self.x = 0;
        self.flip_b4(mode)
    }

    // One display fetch.
    #[tactic(auto, using(basics::proofs::Cases::cases), unfolding(crate::specs::Counter::fetch_of))]
    fn fetch(mut self, mode: Mode) -> Display
        ensures { result ≡ fetch_of mode self }
    {
        if self.b % 16 < 15 {
            self.b += 1;
            return self;
        }
        self.b -= 15;
        self.count_x(mode)
    }

    // k fetches in a run.
    fn run_on(mut self, k: u16) -> Display
        requires { self.b % 16 + k ≤ 15 }
        ensures { result ≡ with_b (self.b + k) self }
    {
        self.b += k;
        self
    }

    // n display fetches. Each turn makes a run of them at once, and then one that may let B3 fall.
    // Stays a while: how far a turn goes hangs on the address that it begins at, so no range or iterator counts the turns.
    pub fn fetches(self, mode: Mode, n: u16) -> Display
        ensures { result ≡ fetches_of mode n self }
    {
        let mut display = self;
        let mut i: u16 = 0;
        while i < n {
            let k = run_length(display.b, n - i - 1);
            display = display.run_on(k).fetch(mode);
            i += k + 1;
        }
        display
    }
}

// How many of the fetches that remain are a run from address b on.
fn run_length(b: u16, remaining: u16) -> u16
    ensures { Run b remaining result }
{
    remaining.min(15 - b % 16)
}
