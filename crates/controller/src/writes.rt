// Register writes.
ghost use Rattle.std.specs.Prelude.{◌≡◌, ◌<◌};
ghost use Rattle.controller.specs.Writes.{kept_of, addressed_of, stored_of, written_of};

use crate::chip::Controller;
use raster::Registers;

// What register k keeps of a byte; past R15 it is nothing.
pub fn kept(k: u8, v: u8) -> u8
    ensures { result ≡ kept_of k v }
{
    match Controller::MASKS.get(k as usize) {
        Some(mask) => v & *mask,
        None => 0,
    }
}

#[tactic(auto, unfolding(crate::specs::Writes::addressed_of))]
fn addressed(r: Registers, v: u8) -> Registers
    ensures { result ≡ addressed_of r v }
{
    Registers { named: v % 32, ..r }
}

#[tactic(auto, using(basics::proofs::Cases::cases), unfolding(crate::specs::Writes::stored_of))]
fn stored(mut r: Registers, v: u8) -> Registers
    ensures { result ≡ stored_of r v }
{
    let at = r.named as usize;
    if at < r.held.len() {
        r.held[at] = kept(r.named, v);
    }
    r
}

#[tactic(auto, using(basics::proofs::Cases::cases), unfolding(crate::specs::Writes::written_of))]
pub(crate) fn written(r: Registers, rs: bool, v: u8) -> Registers
    ensures { result ≡ written_of r rs v }
{
    if rs { stored(r, v) } else { addressed(r, v) }
}
