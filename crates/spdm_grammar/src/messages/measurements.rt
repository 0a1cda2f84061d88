/// Measurements of a responder, in MEASUREMENTS (DSP0274, "MEASUREMENTS response message format").
#[derive(Clone, Copy, Debug, PartialEq, Eq)]
pub struct Measured<'a> {
    /// How many measurement blocks there are in all, told in answer to operation 0.
    pub total: u8,
    /// NumberOfBlocks: how many stand in `block_bytes`.
    pub blocks: u8,
    /// MeasurementRecordData: the blocks, one after the other.
    pub block_bytes: &'a [u8],
    /// Nonce: 32 bytes.
    pub nonce: &'a [u8],
    /// OpaqueData: at most 1,024 bytes.
    pub opaque: &'a [u8],
}

impl Measured<'_> {
    ghost use Rattle.std.specs.Prelude.{◌↔◌, IsTrue};
    ghost use Rattle.spdm_grammar.specs.Message.{measured_message};
    ghost use Rattle.spdm_grammar.specs.Responses.{IsSoundMeasured};

    /// Whether the measurements have an encoding.
    pub fn is_sound(&self) -> bool
        ensures { IsTrue result ↔ IsSoundMeasured (measured_message self.now) }
    {
        self.block_bytes.len() < 0x0100_0000 && self.nonce.len() == 32 && self.opaque.len() <= 1024
    }
}
