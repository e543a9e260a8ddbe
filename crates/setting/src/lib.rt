// A setting: sixteen bytes, one for each register R0 to R15, each cut as a write cuts it; and the controller that it starts.
#![tactic(auto)]

ghost use Rattle.std.specs.Prelude.{◌≡◌, get_or};
ghost use Rattle.setting.specs.Setting.{bytes, cut_of, setting_of, started_of, clean_of};

use controller::{Controller, kept};
use raster::Registers;
use std::array;

// How many bytes a setting has.
pub const BYTES: usize = 16;

// The byte at a place, 0 past the last.
fn byte_at(given: &[u8], k: usize) -> u8
    ensures { result ≡ get_or given.now k 0 }
{
    given.get(k).copied().unwrap_or(0)
}

// What each register keeps of its byte.
fn cut(given: &[u8]) -> [u8; BYTES]
    ensures { result ≡ cut_of given.now }
{
    array::from_fn(|k| kept(k as u8, byte_at(given, k)))
}

// Whether every register keeps its whole byte, so that no bit is set that it lacks.
pub fn is_clean(given: &[u8]) -> bool
    ensures is { result ≡ clean_of given.now }
    ensures kept { given.exit.now ≡ given.entry.now }
{
    (0..BYTES).all(|k| kept(k as u8, byte_at(given, k)) == byte_at(given, k))
}

// The registers of a setting.
#[tactic(auto, unfolding(crate::specs::Setting::setting_of))]
pub fn registers(given: &[u8]) -> Registers
    ensures is { result ≡ setting_of given.now }
    ensures kept { given.exit.now ≡ given.entry.now }
{
    Registers {
        held: cut(given),
        named: 15,
    }
}

// The controller that a setting starts.
#[tactic(auto, using(crate::proofs::Starting::starts_by_reset))]
pub fn start(given: &[u8]) -> Controller
    ensures is { result ≡ started_of given.now }
    ensures kept { given.exit.now ≡ given.entry.now }
{
    let set = Controller {
        regs: registers(given),
        ..Controller::fresh()
    };
    set.reset()
}
