// The questions that a file has to answer, in their order.
ghost use Rattle.std.specs.Prelude.{◌≡◌, None, length};
ghost use Rattle.setup_file.specs.Setup.{kind_of};
ghost use Rattle.setup_file.specs.File.{contents_length};
ghost use Rattle.setup_reader.specs.Entries.{entries_at};
ghost use Rattle.setup_reader.specs.Judged.{follows_of, rising_of, placed_of};
ghost use Rattle.setup_reader.specs.Read.{place_in, asked, clean_in, places_in, judged_of, opened_of};

use crate::bodies::shown;
use crate::contents::{Contents, contents_length};
use crate::places::{Places, Span};
use setting::is_clean;
use setup_file::{Kind, Refusal};

// Whether a kind may come after another.
fn follows(last: Option<Kind>, kind: Option<Kind>) -> bool
    ensures { result ≡ follows_of last kind }
{
    last < kind
}

impl Contents<'_> {
    // The place that the first entry of a kind tells of.
    fn find(&self, kind: Kind) -> Option<Span>
        ensures { result ≡ place_in (kind_of kind) (entries_at self.now.file.now 0 self.now.entries) }
    {
        for i in 0..self.entries {
            let entry = self.entry(i);
            if entry.kind == Some(kind) {
                return Some(Span {
                    start: usize::from(entry.offset),
                    size: usize::from(entry.size),
                });
            }
        }
        None
    }

    // Whether the kinds of all entries are known and rising.
    fn rising(&self) -> Result<(), Refusal>
        ensures { result ≡ asked (rising_of None (entries_at self.now.file.now 0 self.now.entries)) Refusal.Kinds }
    {
        let mut last = None;
        for i in 0..self.entries {
            let kind = self.entry(i).kind;
            if !follows(last, kind) {
                return Err(Refusal::Kinds);
            }
            last = kind;
        }
        Ok(())
    }

    // Whether the bodies of all entries follow one another up to the file's end.
    fn placed(&self) -> Result<(), Refusal>
        ensures { result ≡ asked (placed_of (contents_length self.now.entries) (entries_at self.now.file.now 0 self.now.entries) (length self.now.file.now)) Refusal.Places }
    {
        let mut at = contents_length(self.entries);
        for i in 0..self.entries {
            let entry = self.entry(i);
            if !entry.lies_at(at) {
                return Err(Refusal::Places);
            }
            at += usize::from(entry.size);
        }
        if at == self.file.len() {
            Ok(())
        } else {
            Err(Refusal::Places)
        }
    }

    // Whether the registers, where they are there, have no forbidden bit.
    fn clean(&self) -> Result<(), Refusal>
        ensures { result ≡ asked (clean_in self.now.file.now (entries_at self.now.file.now 0 self.now.entries)) Refusal.Bits }
    {
        let registers = self.find(Kind::Registers);
        if is_clean(shown(self.file, registers)) {
            Ok(())
        } else {
            Err(Refusal::Bits)
        }
    }

    fn places(&self) -> Places
        ensures { result ≡ places_in (entries_at self.now.file.now 0 self.now.entries) }
    {
        Places {
            registers: self.find(Kind::Registers),
            control: self.find(Kind::Control),
            batch: self.find(Kind::Batch),
        }
    }

    fn judged(&self) -> Result<Places, Refusal>
        ensures { result ≡ judged_of self.now.file.now self.now.entries }
    {
        self.rising()?;
        self.placed()?;
        self.clean()?;
        Ok(self.places())
    }
}

// The places of the parts that a file holds, or why it holds no setup.
pub fn open(file: &[u8]) -> Result<Places, Refusal>
    ensures read { result ≡ opened_of file.now }
    ensures kept { file.exit.now ≡ file.entry.now }
{
    Contents::read(file)?.judged()
}
