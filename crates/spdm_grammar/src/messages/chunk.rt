/// A piece of a large message, in CHUNK_SEND and CHUNK_RESPONSE (DSP0274, "CHUNK_SEND request message format").
#[derive(Clone, Copy, Debug, PartialEq, Eq)]
pub struct ChunkView<'a> {
    /// LastChunk: no piece comes after this one.
    pub last: bool,
    /// Handle: which large message it is a piece of.
    pub handle: u8,
    /// ChunkSeqNo: the number of the piece, counted from 0.
    pub number: u16,
    /// LargeMessageSize: the length of the whole in bytes, which the piece of number 0 alone tells.
    pub large: Option<u32>,
    /// The bytes of the piece.
    pub chunk: &'a [u8],
}

impl ChunkView<'_> {
    ghost use Rattle.std.specs.Prelude.{◌↔◌, IsTrue};
    ghost use Rattle.spdm_grammar.specs.Message.{chunk_message};
    ghost use Rattle.spdm_grammar.specs.Fields.{IsSoundChunk};

    /// Whether the piece has an encoding: the one of number 0, and no other, tells the size of the whole.
    pub fn is_sound(&self) -> bool
        ensures { IsTrue result ↔ IsSoundChunk (chunk_message self.now) }
    {
        self.large.is_some() == (self.number == 0) && self.chunk.len() < 0x1_0000_0000
    }
}
