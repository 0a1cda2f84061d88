use crate::{CapsFault, ChunkFault};
use spdm_basis::{DropCause, PacketFault, RecordFault, SessionId};
use thiserror::Error;

/// The outcome of a packet at a requester.
#[derive(Clone, Copy, Debug, PartialEq, Eq)]
pub enum Event {
    /// A further message was sent.
    Progress,
    /// More packets of the body are awaited.
    More,
    /// The command is done.
    Done(Finished),
    /// The request was refused with this error code (DSP0274, "Error code and error data").
    Refused(u8),
    /// A clear ERROR of this code came to a request of a session. It is not protected, and nothing changed.
    Warned(u8),
    /// The negotiation ended without a connection.
    Stopped(Stop),
    /// The session is gone, since a record of it held this.
    Lost(SessionId, BadReply),
    /// No negotiation, request or session changed; the count of packets and an unfinished body may have.
    Ignored(ReqIgnored),
}

/// The outcome of a command.
#[derive(Clone, Copy, Debug, PartialEq, Eq)]
pub enum Finished {
    /// The negotiation is whole.
    Connected,
    /// A session is open.
    Opened(SessionId),
    /// Application data was answered.
    Answered(SessionId),
    /// HEARTBEAT was answered.
    Alive(SessionId),
    /// The keys were updated and verified.
    Updated(SessionId),
    /// Measurements came: the number of all blocks for operation 0, else that of the blocks in the record.
    Measured(u8),
    /// The session is ended.
    Ended(SessionId),
}

/// Why a negotiation stops.
#[derive(Clone, Copy, Debug, PartialEq, Eq, Error)]
pub enum Stop {
    /// No entry of VERSION is of SPDM 1.2.
    #[error("no common version")]
    NoVersion,
    /// The capabilities of the two ends do not go together.
    #[error("capabilities: {0}")]
    Caps(CapsFault),
    /// No hash could be offered, or ALGORITHMS choose what was not.
    #[error("no common algorithms")]
    NoChoice,
    /// NEGOTIATE_ALGORITHMS is too long for the responder.
    #[error("an offer that is too long")]
    TooLong,
}

/// Why a record that opened is no answer.
#[derive(Clone, Copy, Debug, PartialEq, Eq, Error)]
pub enum BadReply {
    /// A message is longer than the own transfer size, or application data than 1,024 bytes.
    #[error("an answer that is too long")]
    TooLong,
    /// The inner message is malformed, at this byte.
    #[error("malformed at byte {0}")]
    Malformed(usize),
    /// Another answer than the expected one.
    #[error("another answer")]
    WrongKind,
    /// ERROR of this code, after which the session can't go on.
    #[error("refused with error code {0}")]
    Refused(u8),
    /// A chunk of a large response is refused.
    #[error("chunk: {0}")]
    Chunk(ChunkFault),
}

/// Why a packet is ignored at a requester, in the order of the checks.
#[derive(Clone, Copy, Debug, PartialEq, Eq, Error)]
pub enum ReqIgnored {
    /// 2^40 packets and commands were taken before.
    #[error("too many packets and commands")]
    Worn,
    /// The bytes are no packet.
    #[error("no packet")]
    Packet(PacketFault),
    /// The packet is dropped where bodies are gathered.
    #[error("a dropped packet")]
    Dropped(DropCause),
    /// The tag owner bit is set.
    #[error("no response")]
    NotResponse,
    /// No request is outstanding.
    #[error("nothing is outstanding")]
    NothingOutstanding,
    /// The message tag is not that of the request.
    #[error("another tag")]
    WrongTag,
    /// The body is neither an SPDM message (type 5) nor a secured one (type 6).
    #[error("another message type")]
    OtherType,
    /// A record came to a clear request, or a clear message that is no ERROR to a request of a session.
    #[error("in the clear or in a record, where it may not be")]
    WrongPlace,
    /// A clear message is longer than the own transfer size.
    #[error("an answer that is too long")]
    TooLong,
    /// The message is malformed, at this byte.
    #[error("malformed at byte {0}")]
    Malformed(usize),
    /// A chunk of a large response is refused.
    #[error("chunk: {0}")]
    Chunk(ChunkFault),
    /// The verify data of PSK_EXCHANGE_RSP is not the computed one.
    #[error("wrong verify data")]
    BadVerify,
    /// The record does not open.
    #[error("record: {0}")]
    Record(RecordFault),
}
