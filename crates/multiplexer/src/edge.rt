// The edges of HS, and what each does to the display counter.
ghost use Rattle.std.specs.Prelude.{◌≡◌};
ghost use Rattle.display.specs.Modes.{mode_at};
ghost use Rattle.control.specs.Names.{mode_of};
ghost use Rattle.multiplexer.specs.Edge.{edge_number, edge_of, moved_of};

use control::Control;
use display::{Display, Mode};

// A fall of HS, a rise with DA0 low, and a rise with DA0 high, which preloads.
#[derive(Clone, Copy)]
pub enum Edge {
    Fall,
    Rise,
    Preload,
}

// The number by which an answer tells an edge.
impl From<Edge> for u8 {
    ghost from_gives = { λ e n. n ≡ edge_number e };

    fn from(edge: Edge) -> u8 {
        match edge {
            Edge::Fall => 1,
            Edge::Rise => 2,
            Edge::Preload => 3,
        }
    }
}

// The edge between the level that HS had and the one it has now.
#[tactic(auto, using(basics::proofs::Cases::cases), unfolding(crate::specs::Edge::edge_of))]
pub(crate) fn edge_between(was: bool, hs: bool, da0: bool) -> Option<Edge>
    ensures { result ≡ edge_of was hs da0 }
{
    match (was, hs, da0) {
        (true, false, _) => Some(Edge::Fall),
        (false, true, false) => Some(Edge::Rise),
        (false, true, true) => Some(Edge::Preload),
        _ => None,
    }
}

// The display mode in force.
pub(crate) fn mode_in_force(control: Control) -> Mode
    ensures { result ≡ mode_at (mode_of control) }
{
    Mode::numbered(control.mode())
}

// The display counter after an edge, if there was one.
#[tactic(auto, unfolding(crate::specs::Edge::moved_of))]
pub(crate) fn moved(control: Control, edge: Option<Edge>, display: Display) -> Display
    ensures { result ≡ moved_of control edge display }
{
    match edge {
        Some(Edge::Fall) => display.fall(mode_in_force(control)),
        Some(Edge::Preload) => display.preload(control.f()),
        Some(Edge::Rise) | None => display,
    }
}
