// A setup as it is handed over.

// Three parts, each there or not: the bytes of R0 to R15, the sixteen control bits with V0 the lowest, and the bytes of a batch.
#[derive(Clone, Copy)]
pub struct Setup<'a> {
    pub registers: Option<[u8; 16]>,
    pub control: Option<u16>,
    pub batch: Option<&'a [u8]>,
}
