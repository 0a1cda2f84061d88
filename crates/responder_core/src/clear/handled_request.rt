use spdm_grammar::{ChunkView, ErrorCode, Exchange};

/// The outcome of a message at a place of the clear part.
#[derive(Clone, Copy, Debug, PartialEq, Eq)]
pub enum HandledRequest<'a> {
    /// It is refused with this code.
    Refused(ErrorCode),
    /// The request with this code is answered.
    Answered(u8),
    /// It is CHUNK_SEND with this chunk, which is refused for no more than for the chunks before it.
    Chunk(ChunkView<'a>),
    /// It is PSK_EXCHANGE and begins a session.
    Exchange(Exchange<'a>),
}
