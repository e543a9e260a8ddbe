// A file whose contents are whole, and its entries.
ghost use Rattle.std.specs.Prelude.{◌≡◌, ◌≤◌, ◌<◌, ◌+◌, length, IfOk, IfErr, is_ok};
ghost use Rattle.setup_file.specs.File.{contents_length};
ghost use Rattle.setup_reader.specs.Entries.{told_of, whole_of, entry_at, entries_at};

use crate::entries::Entry;
use setup_file::Refusal;

// The file tells of one to three entries and has room for them all.
#[derive(Clone, Copy)]
pub(crate) struct Contents<'a> {
    pub(crate) file: &'a [u8],
    // How many entries it tells of.
    pub(crate) entries: usize,
    ghost few: { entries ≤ 3 },
    ghost room: { contents_length entries ≤ length file.now },
}

// How many bytes the contents have.
pub(crate) fn contents_length(entries: usize) -> usize
    requires { entries ≤ 255 }
    ensures { result ≡ contents_length entries }
{
    5 * entries + 1
}

impl<'a> Contents<'a> {
    // Those of a file, unless they are cut short or the number of entries is none that a file has.
    #[tactic(auto, unfolding(crate::specs::Entries::whole_of))]
    pub(crate) fn read(file: &'a [u8]) -> Result<Contents<'a>, Refusal>
        ensures whole { is_ok result ≡ whole_of file.now }
        ensures file { IfOk result (λ c. c.file.now ≡ file.now) }
        ensures entries { IfOk result (λ c. c.entries ≡ told_of file.now) }
        ensures err { IfErr result (λ r. r ≡ Refusal.Contents) }
    {
        let entries = match file {
            [told @ 1..=3, ..] => usize::from(*told),
            _ => return Err(Refusal::Contents),
        };
        if file.len() < contents_length(entries) {
            return Err(Refusal::Contents);
        }
        Ok(Contents { file, entries })
    }

    // Entry i, counted from 0.
    pub(crate) fn entry(&self, i: usize) -> Entry
        requires { i < self.now.entries }
        ensures { result ≡ entry_at self.now.file.now i }
    {
        Entry::read(self.file, i)
    }
}
