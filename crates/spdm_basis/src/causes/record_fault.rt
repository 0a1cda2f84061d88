use thiserror::Error;

/// Why a record does not open (DSP0277, "Secured Message format").
#[derive(Clone, Copy, Debug, PartialEq, Eq, Error)]
pub enum RecordFault {
    /// There are fewer than 26 bytes: a header, the length of the inner message and a tag.
    #[error("fewer than 26 bytes")]
    Short,
    /// The session id is another one.
    #[error("another session id")]
    WrongId,
    /// The number is not the expected one.
    #[error("another number")]
    WrongNumber,
    /// The length field is not the count of bytes after it, or the record has more than 4,160 bytes.
    #[error("another length")]
    WrongLength,
    /// The tag is not that of the record.
    #[error("another tag")]
    BadTag,
    /// The length of the inner message passes the bytes after it.
    #[error("an inner message longer than its record")]
    BadInnerLength,
    /// The key has sealed as many records as it may. Opening a record under a key and a number never gives this one.
    #[error("a spent key")]
    KeySpent,
}
