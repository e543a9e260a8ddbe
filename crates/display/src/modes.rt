// The eight display modes.
ghost use Rattle.std.specs.Prelude.{◌≡◌};
ghost use Rattle.display.specs.Modes.{mode_at};

// One mode: at x falls of B3 bit B4 flips, at y falls of B4 the address above it moves on, and a fall of HS clears up to bit top.
// The top stays a number: the calls take any, and one that is neither 3 nor 4 clears nothing.
#[derive(Clone, Copy)]
pub struct Mode {
    pub x: u8,
    pub y: u8,
    pub top: u8,
}

// X, Y and the top bit cleared of each mode, by V2 V1 V0. A top bit of 0 stands for none.
// Stays an array of eight three-number arrays: the table of forms in docs/RULES.md names it so.
const MODES: [[u8; 3]; 8] = [
    [1, 12, 4],
    [3, 1, 3],
    [1, 3, 4],
    [2, 1, 3],
    [1, 2, 4],
    [1, 1, 3],
    [1, 1, 4],
    [1, 1, 0],
];

impl Mode {
    // The mode that the low three bits of v name.
    pub fn numbered(v: u8) -> Mode
        ensures { result ≡ mode_at v }
    {
        let [x, y, top] = MODES[usize::from(v % 8)];
        Mode { x, y, top }
    }
}
