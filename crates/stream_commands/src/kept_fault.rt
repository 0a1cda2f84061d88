use crate::StreamFault;
use boot_keeper::BootFault;
use thiserror::Error;

/// Why a stream was not served to its end in the life of a kept boot.
#[derive(Clone, Copy, Debug, PartialEq, Eq, Error)]
pub enum KeptFault {
    /// As without a keeper. Where memory ran out, or a frame was read, the seed is gone and the boot is used up.
    #[error("{0}")]
    Stream(StreamFault),
    /// There is no next boot. The seed is gone; nothing was written, and no frame was read.
    #[error("{0}")]
    Boot(BootFault),
}
