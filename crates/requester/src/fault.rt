use thiserror::Error;

/// Why a configuration is rejected, in the order of the checks.
#[derive(Clone, Copy, Debug, PartialEq, Eq, Error)]
pub enum ReqConfigFault {
    /// Requester and responder have the same EID.
    #[error("two endpoints with the same endpoint ID")]
    SameEid,
    /// A size, a length, the unit or the padding is out of its range.
    #[error("a size out of its range")]
    SizeRange,
    #[error("out of memory")]
    OutOfMemory,
}
