// Refresh: eight rows of the memory chips at each fall of HS.
ghost use Rattle.std.specs.Prelude.{◌≡◌};
ghost use Rattle.multiplexer.specs.Refresh.{eight_from, idle_at, refresh_of};

use crate::edge::Edge;
use control::Control;

// A run of rows, count of them from first on. Where nothing is refreshed the run is empty and first is 0, as an answer tells it.
#[derive(Clone, Copy)]
pub struct Rows {
    pub first: u8,
    pub count: u8,
}

// What an HS level refreshes, and where the counter then stands.
#[derive(Clone, Copy)]
pub struct Refresh {
    pub rows: Rows,
    pub counter: u8,
}

// Eight rows, and the 7-bit counter moved past them.
fn eight_rows(counter: u8) -> Refresh
    ensures { result ≡ eight_from counter }
{
    let rows = Rows {
        first: counter,
        count: 8,
    };
    let counter = counter.wrapping_add(8) % 128;
    Refresh { rows, counter }
}

// Nothing refreshed.
fn idle(counter: u8) -> Refresh
    ensures { result ≡ idle_at counter }
{
    let rows = Rows { first: 0, count: 0 };
    Refresh { rows, counter }
}

// What an edge of HS refreshes.
#[tactic(auto, using(basics::proofs::Cases::cases), unfolding(crate::specs::Refresh::refresh_of))]
pub(crate) fn refreshed(control: Control, edge: Option<Edge>, counter: u8) -> Refresh
    ensures { result ≡ refresh_of control edge counter }
{
    match edge {
        Some(Edge::Fall) if !control.r1() => eight_rows(counter),
        _ => idle(counter),
    }
}
