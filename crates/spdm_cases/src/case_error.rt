use spdm_basis::OutOfMemory;
use std::alloc::{AllocError, AllocFailed};
use std::io;
use thiserror::Error;

/// Why the cases could not be run.
#[derive(Debug, Drop, Error)]
pub enum CaseError {
    /// A line asks for nothing that is known, or a number or digits in it are none.
    #[error("a line that asks for nothing")]
    BadLine,
    /// Memory ran out.
    #[error("out of memory")]
    OutOfMemory,
    /// The keeper in memory failed.
    #[error("the keeper failed")]
    Keeper,
    /// A file could not be read, or what came could not be written.
    #[error("{0}")]
    Io(#[from] io::Error),
}

impl From<AllocError> for CaseError {
    fn from(_error: AllocError) -> CaseError {
        CaseError::OutOfMemory
    }
}

impl From<OutOfMemory> for CaseError {
    fn from(_error: OutOfMemory) -> CaseError {
        CaseError::OutOfMemory
    }
}

impl From<hex::FromHexError> for CaseError {
    fn from(_error: hex::FromHexError) -> CaseError {
        CaseError::BadLine
    }
}

impl<T: Drop> From<AllocFailed<T>> for CaseError {
    fn from(_error: AllocFailed<T>) -> CaseError {
        CaseError::OutOfMemory
    }
}
