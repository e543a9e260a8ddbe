// How much of a text is said.
ghost use Rattle.std.specs.Prelude.{◌≡◌};
ghost use Rattle.text.specs.Speech.{said_of};

// The whole of a text where that is wanted, and else none of it.
pub fn said(wanted: bool, text: &[u8]) -> &[u8]
    ensures much { result.now ≡ said_of wanted text.now }
    ensures place { result.ref_ptr ≡ text.entry.ref_ptr }
    ensures kept { text.exit.now ≡ text.entry.now }
{
    if wanted { text } else { &text[..0] }
}
