use thiserror::Error;

/// Why rules make no policy, in the order of the checks.
#[derive(Clone, Copy, Debug, PartialEq, Eq, Error)]
pub enum PolicyFault {
    /// An index is 0 or 255.
    #[error("an index that names no block")]
    IndexOutOfRange,
    /// Two rules have one index.
    #[error("an index that is taken")]
    IndexTaken,
    #[error("out of memory")]
    OutOfMemory,
}
