use thiserror::Error;

/// Why there is no next boot.
#[derive(Clone, Copy, Debug, PartialEq, Eq, Error)]
pub enum BootFault {
    /// A call of the keeper failed.
    #[error("the keeper of the boot number failed")]
    KeeperFault,
    /// The last boot number is used up.
    #[error("all boot numbers are used up")]
    Spent,
}
