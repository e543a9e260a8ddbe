// The parts of a setup as bytes.
ghost use Rattle.std.specs.Prelude.{◌≡◌, ◌≤◌, length, option_copied};
ghost use Rattle.setup_file.specs.Setup.{word_body};
ghost use Rattle.setup_writer.specs.Write.{given_of, bytes_in};

use basics::{high, low};
use setup_file::Setup;

// A body of a fixed length; and that it has that length.
fn whole<const N: usize>(body: &[u8; N]) -> &[u8]
    ensures is { result.now ≡ body.now }
    ensures long { length body.now ≡ N }
{
    body
}

// The bytes of a part whose length is fixed, where it is there.
pub(crate) fn slice_of<const N: usize>(part: &Option<[u8; N]>) -> Option<&[u8]>
    ensures is { option_copied result ≡ part.now }
    ensures most { length (bytes_in part.now) ≤ N }
{
    match part {
        Some(body) => Some(whole(body)),
        None => None,
    }
}

// The two bytes of the control bits, where they are there.
pub(crate) fn pair(setup: &Setup) -> Option<[u8; 2]>
    ensures { result ≡ word_body (given_of setup.now).control }
{
    match setup.control {
        Some(bits) => Some([high(bits), low(bits)]),
        None => None,
    }
}

// How many bytes a part has; none without it.
pub(crate) fn size(part: Option<&[u8]>) -> usize
    ensures { result ≡ length (bytes_in (option_copied part.entry)) }
{
    part.map_or(0, |body| body.len())
}
