// An answer: eight bytes, the kind and the refusal number first, then the body.
#![tactic(auto)]

ghost use Rattle.std.specs.Prelude.{◌≡◌};
ghost use Rattle.answer.specs.Answer.{done_of, plain_of, bytes_of};

// `refusal` stays a number: an answer is the eight bytes that go out, and this is the second of them.
#[repr(C)]
#[derive(Clone, Copy)]
pub struct Answer {
    pub kind: u8,
    pub refusal: u8,
    pub body: [u8; 6],
}

impl Answer {
    // The answer to a record that was done. A body byte that its kind does not name is 0.
    pub fn done(kind: u8, body: [u8; 6]) -> Answer
        ensures { result ≡ done_of kind body }
    {
        Answer {
            kind,
            refusal: 0,
            body,
        }
    }

    // An answer with a zero body.
    pub fn plain(kind: u8, refusal: u8) -> Answer
        ensures { result ≡ plain_of kind refusal }
    {
        Answer {
            kind,
            refusal,
            body: [0; 6],
        }
    }

    // Its bytes, in the order that they are written in. Stays a method: rules and promises name it, and an array's `from` would say less.
    pub fn bytes(self) -> [u8; 8]
        ensures { result ≡ bytes_of self }
    {
        let [b0, b1, b2, b3, b4, b5] = self.body;
        [self.kind, self.refusal, b0, b1, b2, b3, b4, b5]
    }
}
