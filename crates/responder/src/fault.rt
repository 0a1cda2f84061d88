use measurements::InventoryFault;
use thiserror::Error;

/// Why a configuration is rejected, in the order of the checks.
#[derive(Clone, Copy, Debug, PartialEq, Eq, Error)]
pub enum RspConfigFault {
    /// There are more than eight requesters.
    #[error("more than eight requesters")]
    TooManyRequesters,
    /// The responder and the requesters do not have distinct EIDs.
    #[error("two endpoints with the same endpoint ID")]
    SameEid,
    /// Two requesters have the same pre-shared key.
    #[error("a pre-shared key that is taken")]
    SamePsk,
    /// DataTransferSize, MaxSPDMmsgSize, the transmission unit, the length of OpaqueData or that of a PSKHint is out of
    /// its range.
    #[error("a size out of its range")]
    SizeRange,
    /// The measurement blocks make no inventory, for this reason. Never an allocation failure.
    #[error("{0}")]
    Inventory(InventoryFault),
    #[error("out of memory")]
    OutOfMemory,
}
