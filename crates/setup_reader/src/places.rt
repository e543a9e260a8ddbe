// Where the bodies of a file stand.
ghost use Rattle.std.specs.Prelude.{◌≡◌};
ghost use Rattle.setup_reader.specs.Read.{place_for};

use setup_file::Kind;

// The bytes of a part.
#[derive(Clone, Copy)]
pub struct Span {
    pub start: usize,
    pub size: usize,
}

// Where each part stands that is there.
#[derive(Clone, Copy)]
pub struct Places {
    pub registers: Option<Span>,
    pub control: Option<Span>,
    pub batch: Option<Span>,
}

impl Places {
    pub(crate) fn place_for(self, kind: Kind) -> Option<Span>
        ensures { result ≡ place_for self kind }
    {
        match kind {
            Kind::Registers => self.registers,
            Kind::Control => self.control,
            Kind::Batch => self.batch,
        }
    }
}
