use thiserror::Error;

/// Why a request in an open session is refused, in the order of the checks.
#[derive(Clone, Copy, Debug, PartialEq, Eq, Error)]
pub enum AskFault {
    /// A capability or algorithm that it needs was not negotiated.
    #[error("not negotiated")]
    NotNegotiated,
    /// A key has sealed too many records. UpdateAllKeys and END_SESSION are always possible.
    #[error("a key is spent")]
    KeySpent,
    /// Application data has more than 1,024 bytes.
    #[error("more than 1,024 bytes")]
    TooLong,
}
