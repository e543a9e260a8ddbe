// An entry of a file's contents.
ghost use Rattle.std.specs.Prelude.{◌≡◌, ◌≤◌, ◌<◌, ◌+◌, length};
ghost use Rattle.setup_file.specs.File.{contents_length};
ghost use Rattle.setup_reader.specs.Entries.{entry_at};
ghost use Rattle.setup_reader.specs.Judged.{length_fits, lies_at};

use basics::word;
use setup_file::Kind;

#[derive(Clone, Copy)]
pub struct Entry {
    // None where its byte stands for no kind.
    pub kind: Option<Kind>,
    pub offset: u16,
    pub size: u16,
}

// Whether a body of this length may be of this kind.
fn length_fits(kind: Option<Kind>, size: u16) -> bool
    ensures { result ≡ length_fits kind size }
{
    match kind {
        Some(Kind::Registers) => size == 16,
        Some(Kind::Control) => size == 2,
        Some(Kind::Batch) | None => size <= 4096,
    }
}

impl Entry {
    // Entry i of a file, counted from 0.
    #[tactic(auto, unfolding(crate::specs::Entries::entry_at))]
    pub(crate) fn read(file: &[u8], i: usize) -> Entry
        requires i_bound { i < 3 }
        requires i_in_bounds { contents_length i + 5 ≤ length file.now }
        ensures { result ≡ entry_at file.now i }
    {
        let at = 5 * i;
        let kind = Kind::try_from(file[at + 1]).ok();
        let offset = word(file[at + 2], file[at + 3]);
        let size = word(file[at + 4], file[at + 5]);
        Entry { kind, offset, size }
    }

    // Whether its body begins at a place and has a length of its kind.
    #[tactic(auto, unfolding(crate::specs::Judged::lies_at))]
    pub(crate) fn lies_at(self, at: usize) -> bool
        ensures { result ≡ lies_at self at }
    {
        usize::from(self.offset) == at && length_fits(self.kind, self.size)
    }
}
