/// What an end can do, in GET_CAPABILITIES and CAPABILITIES (DSP0274, "GET_CAPABILITIES request message format").
#[derive(Clone, Copy, Debug, PartialEq, Eq)]
pub struct Caps {
    /// CTExponent: a cryptographic answer takes up to 2 to this power microseconds.
    pub ct: u8,
    /// Flags: one bit, or two, for each capability.
    pub flags: u32,
    /// DataTransferSize: the longest message in bytes that the end takes in one piece.
    pub transfer: u32,
    /// MaxSPDMmsgSize: the longest message in bytes that the end takes in chunks.
    pub max: u32,
}
