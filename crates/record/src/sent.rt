// The four bytes of a record, as they were sent.
ghost use Rattle.std.specs.Prelude.{◌≡◌};
ghost use Rattle.record.specs.Sent.{record_of};

#[derive(Clone, Copy)]
pub struct Record {
    pub kind: u8,
    pub hi: u8,
    pub lo: u8,
    pub value: u8,
}

impl From<[u8; 4]> for Record {
    ghost from_gives = { λ bytes sent. sent ≡ record_of bytes };

    fn from(bytes: [u8; 4]) -> Record {
        let [kind, hi, lo, value] = bytes;
        Record {
            kind,
            hi,
            lo,
            value,
        }
    }
}
