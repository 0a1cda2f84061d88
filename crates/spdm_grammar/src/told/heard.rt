use spdm_basis::{DropCause, PacketFault, SessionId};
use thiserror::Error;

/// What the responder heard: the outcome of a received packet.
#[derive(Clone, Copy, Debug, PartialEq, Eq)]
pub enum Heard {
    /// A request was answered; this is its code.
    Answered(u8),
    /// Application data was received in this session.
    Taken(SessionId),
    /// A request was refused with this error code (DSP0274, "Error code and error data").
    Refused(u8),
    /// No session opens the record, and DecryptError was sent.
    Unopened,
    /// A repeat of the last message or record: its stored response was sent again.
    Same,
    /// More packets of the body are awaited.
    More,
    /// Nothing was sent.
    Ignored(RspIgnored),
}

/// Why the responder ignores a packet.
#[derive(Clone, Copy, Debug, PartialEq, Eq, Error)]
pub enum RspIgnored {
    /// Worn out: the responder has reached its lifetime limit of 2^40 packets.
    #[error("too many packets")]
    Worn,
    /// The bytes are no packet.
    #[error("no packet")]
    Packet(PacketFault),
    /// The packet was dropped in message assembly.
    #[error("a dropped packet")]
    Dropped(DropCause),
    /// The source endpoint is no configured requester.
    #[error("an unknown peer")]
    UnknownPeer,
    /// A complete message body without the tag owner bit.
    #[error("no request")]
    NotRequest,
    /// A complete message body whose type is neither SPDM (5) nor secured message (6).
    #[error("another message type")]
    OtherType,
}

/// Why application data is not queued as a reply.
#[derive(Clone, Copy, Debug, PartialEq, Eq, Error)]
pub enum ReplyFault {
    /// No requester has this endpoint ID.
    #[error("an unknown peer")]
    UnknownPeer,
    /// There are more than 1,024 bytes.
    #[error("more than 1,024 bytes")]
    TooLong,
    /// 16 messages are queued.
    #[error("16 messages wait")]
    Full,
}
