// What a record can ask of the bench. A field that the table of kinds holds to 0 or 1 is a bool, so no other value can be said.
#[derive(Clone, Copy)]
pub enum Event {
    Write { rs: bool, value: u8 },
    Read { rs: bool },
    Clocks { n: u16 },
    Strike,
    Reset { multiplexer: bool },
    Cycle { address: u16, read: bool },
    Fetches { n: u16 },
    Levels { hs: bool, da0: bool },
    Locate,
}
