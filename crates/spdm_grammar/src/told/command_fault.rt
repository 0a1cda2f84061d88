use thiserror::Error;

/// Why a requester does not do a command, in the order of the checks.
#[derive(Clone, Copy, Debug, PartialEq, Eq, Error)]
pub enum CommandFault {
    /// 2^40 packets and commands were taken before.
    #[error("too many packets and commands")]
    Worn,
    /// There is no request to send again.
    #[error("nothing to retry")]
    NothingToRetry,
    /// A request is outstanding.
    #[error("a request is outstanding")]
    Busy,
    /// Nothing was negotiated.
    #[error("not connected")]
    NotConnected,
    /// No live session has this id.
    #[error("no such session")]
    NoSuchSession,
    /// Four sessions are live.
    #[error("four sessions are live")]
    SessionLimit,
    /// The capability was not negotiated.
    #[error("not negotiated")]
    NotNegotiated,
    /// The kind of summary is none of 0, 1 and 255.
    #[error("no kind of summary")]
    BadSummary,
    /// The keys of the session have sealed as many records as they may.
    #[error("a spent key")]
    KeySpent,
    /// Application data has more than 1,024 bytes, or PSK_EXCHANGE is too long for the responder.
    #[error("too long")]
    TooLong,
}
