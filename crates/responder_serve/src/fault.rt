use responder::RspConfigFault;
use thiserror::Error;

/// Why a stream was not served to its end.
#[derive(Clone, Copy, Debug, PartialEq, Eq, Error)]
pub enum ServeFault {
    /// Reading failed.
    #[error("reading failed")]
    ReadFault,
    /// Writing failed, possibly after part of the output.
    #[error("writing failed")]
    WriteFault,
    /// The stream has more than 2^40 bytes.
    #[error("the stream is too long")]
    TooLong,
    /// The frame that begins at this byte of the stream has a wrong kind, or is cut by the end of input.
    #[error("bad frame at byte {at}")]
    BadFrame { at: u64 },
    /// The configuration sets up no responder: the first fault, which is not allocation failure. Nothing was read and
    /// nothing was written.
    #[error("no responder: {0}")]
    Responder(RspConfigFault),
    /// Out of memory. Nothing was read and nothing was written.
    #[error("out of memory")]
    OutOfMemory,
}
