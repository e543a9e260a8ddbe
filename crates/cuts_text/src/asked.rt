// A list of calls, as bytes.
ghost use Rattle.std.specs.Prelude.{◌≡◌, IfSome, length};
ghost use Rattle.cuts_text.specs.Asked.{cut_of, first_of, length_of, list_in, is_list_of};
ghost use Rattle.cuts_text.specs.Whole.{no_call};
ghost use Rattle.cuts_text.specs.private.Within.{Within};

use basics::word;
use replay::unread_rest;
use rooms_text::room_of;

// The longest list that is taken.
pub const INPUT: usize = batch::MOST;

// The bytes in front of a cut: the sort of call, its room, and how long the cut is.
pub(crate) const HEAD: usize = 5;

// The byte that a call begins with. The two stay numbers: they name the patterns by which a byte of the input is told, and nothing holds them.
const CUT: u8 = 1;

const CLOSE: u8 = 2;

// A call of a list.
#[derive(Clone, Copy)]
pub enum Asked {
    Close,
    Cut { room: usize, long: u16 },
}

impl Asked {
    // How many bytes say it.
    pub(crate) fn length(self) -> usize
        ensures { result ≡ length_of self }
    {
        match self {
            Asked::Close => 1,
            Asked::Cut { room: _, long } => HEAD + usize::from(long),
        }
    }
}

// A cut, where its head and all of its bytes are there.
fn cut(rest: &[u8]) -> Option<Asked>
    ensures is { result ≡ cut_of rest.now }
    ensures within { IfSome result (λ asked. Within asked (length rest.now)) }
{
    let [_, room_high, room_low, long_high, long_low, bytes @ ..] = rest else {
        return None;
    };
    let room = room_of(*room_high, *room_low);
    let long = word(*long_high, *long_low);
    if bytes.len() < usize::from(long) {
        return None;
    }
    Some(Asked::Cut { room, long })
}

// The call that some bytes begin with, if they do.
pub(crate) fn first(rest: &[u8]) -> Option<Asked>
    ensures is { result ≡ first_of rest.now }
    ensures within { IfSome result (λ asked. Within asked (length rest.now)) }
{
    let [sort, ..] = rest else {
        return None;
    };
    match *sort {
        CLOSE => Some(Asked::Close),
        CUT => cut(rest),
        _ => None,
    }
}

// What is said of an input that is no list of calls.
pub fn refusal() -> [u8; 8]
    ensures { result ≡ no_call }
{
    *b"no call\n"
}

// Whether bytes are calls one after the other, no more than so many.
fn list_in(rest: &[u8], most: usize) -> bool
    ensures { result ≡ list_in most rest.now }
{
    if rest.is_empty() {
        return true;
    }
    if most == 0 {
        return false;
    }
    let Some(asked) = first(rest) else {
        return false;
    };
    list_in(unread_rest(rest, asked.length()), most - 1)
}

// Whether an input is a list of calls that is not too long.
pub fn is_list(input: &[u8]) -> bool
    ensures is { result ≡ is_list_of input.now }
    ensures kept { input.exit.now ≡ input.entry.now }
{
    if INPUT < input.len() {
        return false;
    }
    list_in(input, input.len())
}
