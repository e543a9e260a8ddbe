// The bodies of a file, shown as parts of it.
ghost use Rattle.std.specs.Prelude.{◌≡◌, Some};
ghost use Rattle.setup_reader.specs.Read.{opened_of, place_of, shown_of, shown_at};

use crate::places::{Places, Span};
use crate::read::open;
use setup_file::{Kind, Refusal};

// The bytes of a span, as many of them as the file has.
fn held(file: &[u8], span: Span) -> &[u8]
    ensures bytes { result.now ≡ shown_of file.now (Some span) }
    ensures place { result.ref_ptr ≡ shown_at file.entry.ref_ptr file.now (Some span) }
    ensures kept { file.exit.now ≡ file.entry.now }
{
    let from = span.start.min(file.len());
    let to = from + span.size.min(file.len() - from);
    &file[from..to]
}

// The bytes at a place; none, at the file's end, where there is no place.
pub(crate) fn shown(file: &[u8], place: Option<Span>) -> &[u8]
    ensures bytes { result.now ≡ shown_of file.now place }
    ensures place { result.ref_ptr ≡ shown_at file.entry.ref_ptr file.now place }
    ensures kept { file.exit.now ≡ file.entry.now }
{
    let Some(span) = place else {
        let end = file.len();
        return &file[end..];
    };
    held(file, span)
}

fn place_of(opened: Result<Places, Refusal>, kind: Kind) -> Option<Span>
    ensures { result ≡ place_of opened kind }
{
    opened.ok()?.place_for(kind)
}

// A part of a file, in the file itself; the empty part at its end where the file has none, or is refused.
pub fn part(file: &[u8], kind: Kind) -> &[u8]
    ensures bytes { result.now ≡ shown_of file.now (place_of (opened_of file.now) kind) }
    ensures place { result.ref_ptr ≡ shown_at file.entry.ref_ptr file.now (place_of (opened_of file.now) kind) }
    ensures kept { file.exit.now ≡ file.entry.now }
{
    let place = place_of(open(file), kind);
    shown(file, place)
}
