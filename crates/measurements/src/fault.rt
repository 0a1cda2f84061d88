use thiserror::Error;

/// Why blocks make no inventory, in the order of the checks.
#[derive(Clone, Copy, Debug, PartialEq, Eq, Error)]
pub enum InventoryFault {
    /// An index is 0 or 255.
    #[error("an index that names no block")]
    IndexOutOfRange,
    /// Two blocks have one index.
    #[error("an index that is taken")]
    IndexTaken,
    /// All blocks together have more than 4,054 bytes.
    #[error("blocks that are too long")]
    TooLong,
    #[error("out of memory")]
    OutOfMemory,
}

/// Why there is no record for an operation.
#[derive(Clone, Copy, Debug, PartialEq, Eq, Error)]
pub enum MeasureFault {
    /// No block has the index.
    #[error("no block of this index")]
    NoSuchIndex,
}
