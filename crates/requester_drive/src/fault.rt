use requester::ReqConfigFault;
use thiserror::Error;

/// Why a requester was not driven to the end of its stream.
#[derive(Clone, Copy, Debug, PartialEq, Eq, Error)]
pub enum DriveFault {
    /// Reading failed.
    #[error("reading failed")]
    ReadFault,
    /// Writing failed, possibly after part of the output.
    #[error("writing failed")]
    WriteFault,
    /// The stream has more than 2^40 bytes.
    #[error("the stream is too long")]
    TooLong,
    /// The frame that begins at this byte of the stream has a wrong kind, is cut by the end of input, or is a line that is
    /// no command of requester 1.
    #[error("bad frame at byte {at}")]
    BadFrame { at: u64 },
    /// The configuration sets up no requester: the first fault, which is not allocation failure. Nothing was read and
    /// nothing was written.
    #[error("no requester: {0}")]
    Requester(ReqConfigFault),
    /// Out of memory, before the first frame.
    #[error("out of memory")]
    OutOfMemory,
}
