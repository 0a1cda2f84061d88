use thiserror::Error;

/// Why the capabilities of two ends do not go together (DSP0274, "CAPABILITIES"), in the order of the checks.
#[derive(Clone, Copy, Debug, PartialEq, Eq, Error)]
pub enum CapsFault {
    /// A DataTransferSize is below 42.
    #[error("a transfer size below 42")]
    SizeTooSmall,
    /// A MaxSPDMmsgSize is below the DataTransferSize of its end.
    #[error("a message size below the transfer size")]
    SizesCrossed,
    /// PSK_CAP of the requester is not 01, or that of the responder not 10.
    #[error("no pre-shared keys")]
    NoPsk,
    /// ENCRYPT_CAP or MAC_CAP is missing at one end.
    #[error("no encryption or no authentication")]
    NoProtection,
}

/// Why a chunk is refused (DSP0274, "CHUNK_SEND" and "CHUNK_RESPONSE").
#[derive(Clone, Copy, Debug, PartialEq, Eq, Error)]
pub enum ChunkFault {
    #[error("another handle")]
    WrongHandle,
    #[error("not the next chunk")]
    WrongNumber,
    #[error("a chunk of a wrong size")]
    WrongSize,
    #[error("a message that is too large")]
    TooLarge,
    #[error("the last chunk before the end")]
    EarlyLast,
    #[error("no last chunk at the end")]
    MissingLast,
}
