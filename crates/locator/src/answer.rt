// Where the newest strike was.
ghost use Rattle.std.specs.Prelude.{◌≡◌};
ghost use Rattle.locator.specs.Locate.{number_of, named_of, strike_found_of, locate_of};

use crate::cells::Cell;
use crate::fit::{Fit, picture_fit};
use controller::Controller;
use pen::Strike;
use raster::Registers;

// Why no cell is named.
#[derive(Clone, Copy, Debug, PartialEq, Eq)]
pub enum Unlocated {
    Unstruck,
    Outside,
    Nowhere,
    Several,
}

// Its number in the table of refusals.
impl From<Unlocated> for u8 {
    ghost from_gives = { λ why n. n ≡ number_of why };

    fn from(why: Unlocated) -> u8 {
        match why {
            Unlocated::Unstruck => 5,
            Unlocated::Outside => 6,
            Unlocated::Nowhere => 7,
            Unlocated::Several => 8,
        }
    }
}

#[tactic(auto, unfolding(crate::specs::Locate::named_of))]
fn named(f: Fit) -> Result<Cell, Unlocated>
    ensures { result ≡ named_of f }
{
    match f {
        Fit::Free => Err(Unlocated::Nowhere),
        Fit::One(c) => Ok(c),
        Fit::Many => Err(Unlocated::Several),
    }
}

// Where a strike was: outside the picture, or in the one cell that fits its latch.
#[tactic(auto, using(basics::proofs::Cases::cases), unfolding(crate::specs::Locate::strike_found_of))]
fn strike_found(r: Registers, strike: Strike) -> Result<Cell, Unlocated>
    ensures { result ≡ strike_found_of r strike }
{
    if strike.inside {
        named(picture_fit(r, strike.latch))
    } else {
        Err(Unlocated::Outside)
    }
}

// Where the newest strike of the controller's pen was.
#[tactic(auto, using(basics::proofs::Cases::cases), unfolding(crate::specs::Locate::locate_of))]
pub fn locate(c: Controller) -> Result<Cell, Unlocated>
    ensures { result ≡ locate_of c }
{
    if !c.pen.holds() {
        return Err(Unlocated::Unstruck);
    }
    strike_found(c.regs, c.pen.newest())
}
