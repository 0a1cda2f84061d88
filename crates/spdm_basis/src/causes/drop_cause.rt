use thiserror::Error;

/// Why a packet is dropped in message assembly (DSP0236, "Dropped packets").
#[derive(Clone, Copy, Debug, PartialEq, Eq, Error)]
pub enum DropCause {
    /// Another destination endpoint than the own one, or another source than the peer.
    #[error("another destination or source")]
    NotOurs,
    /// The packet is no first packet, and no unfinished body has its message tag and tag owner bit.
    #[error("no unfinished body with this tag")]
    NoStart,
    /// The sequence number is not the next one.
    #[error("not the next sequence number")]
    WrongSequence,
    /// The payload is empty, is longer than that of the first packet, or is shorter and not the last.
    #[error("a payload of the wrong size")]
    WrongSize,
    /// The body is longer than the limit.
    #[error("the body is too long")]
    TooLong,
    /// The body has the integrity check bit, bit 7 of its first byte.
    #[error("the integrity check bit is set")]
    IntegritySet,
}
