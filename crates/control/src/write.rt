// Writing the control bits.
ghost use Rattle.std.specs.Prelude.{◌≡◌, ◌<◌};
ghost use Rattle.basics.specs.Bits.{num};
ghost use Rattle.control.specs.Write.{put_bit, is_control_of, control_write_of, written_of, after_of};

use crate::bits::Control;

// The bits with bit k set, or cleared.
#[tactic(auto, using(crate::proofs::OneBit::set_is_put, crate::proofs::OneBit::clear_is_put))]
fn put_bit(k: u16, set: bool, bits: u16) -> u16
    requires { k < 16 }
    ensures { result ≡ put_bit k (num set) bits }
{
    if set { bits | 1 << k } else { bits & !(1 << k) }
}

// Whether an address is one of the 32 that write a control bit.
#[tactic(auto, unfolding(crate::specs::Write::is_control_of))]
fn is_control(address: u16) -> bool
    ensures { result ≡ is_control_of address }
{
    (0xFFC0..0xFFE0).contains(&address)
}

// Whether a bus cycle writes a control bit.
#[tactic(auto, unfolding(crate::specs::Write::control_write_of))]
pub fn is_control_write(address: u16, read: bool) -> bool
    ensures { result ≡ control_write_of address read }
{
    !read && is_control(address)
}

impl Control {
    // The bits after a write to an address.
    #[tactic(auto, using(crate::proofs::Written::writing), unfolding(crate::specs::Write::written_of))]
    pub fn written(self, address: u16) -> Control
        ensures { result ≡ written_of self address }
    {
        if is_control(address) {
            let bits = put_bit((address - 0xFFC0) / 2, address % 2 == 1, self.bits);
            Control { bits }
        } else {
            self
        }
    }

    // The bits after a bus cycle.
    #[tactic(auto, using(basics::proofs::Cases::cases), unfolding(crate::specs::Write::after_of))]
    pub fn after(self, address: u16, read: bool) -> Control
        ensures { result ≡ after_of self address read }
    {
        if read { self } else { self.written(address) }
    }
}
