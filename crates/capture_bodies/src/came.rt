use spdm_basis::DropCause;
use spdm_grammar::ChunkFault;

/// What a packet completes.
#[derive(Clone, Copy, Debug, PartialEq, Eq)]
pub enum Came {
    /// A body, with this tag owner bit.
    Body(bool),
    /// More packets are awaited.
    More,
    /// The packet is dropped.
    Dropped(DropCause),
}

/// What a packet does to a large message.
#[derive(Clone, Copy, Debug, PartialEq, Eq)]
pub enum LargePart {
    /// It has no chunk in the clear.
    NoChunk,
    /// With its chunk there are so many bytes of so many.
    Awaiting { held: usize, told: u32 },
    /// With its chunk the large message is whole.
    Whole,
    /// Its chunk is refused.
    Refused(ChunkFault),
}

// What a chunk leads to.
#[derive(Clone, Copy, Debug, PartialEq, Eq)]
pub(crate) enum Collected {
    Whole,
    More,
    Refused(ChunkFault),
}
