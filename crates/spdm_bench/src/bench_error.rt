use std::alloc::AllocError;
use std::io;
use thiserror::Error;

/// Why the program printed nothing.
#[derive(Debug, Drop, Error)]
pub enum BenchError {
    /// The words ask for no work.
    #[error("usage: spdm_bench gcm|hmac|session|records|ends SIZE COUNT")]
    Usage,
    /// The handshake opened no session.
    #[error("no session")]
    NoSession,
    /// A record was refused.
    #[error("a record was refused")]
    Refused,
    /// Out of memory.
    #[error("out of memory")]
    OutOfMemory,
    /// The words could not be had, or the tag could not be written.
    #[error("{0}")]
    Io(#[from] io::Error),
}

impl From<AllocError> for BenchError {
    fn from(_error: AllocError) -> BenchError {
        BenchError::OutOfMemory
    }
}
