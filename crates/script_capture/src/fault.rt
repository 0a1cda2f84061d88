use script_text::LineFault;
use thiserror::Error;

/// Why the capture of a script was not written.
#[derive(Clone, Copy, Debug, PartialEq, Eq, Error)]
pub enum CaptureFault {
    /// The first bad line of the script, counted from 1, and its first fault. Nothing was written.
    #[error("line {0}: {1}")]
    Line(u32, LineFault),
    /// The event on this line sends a packet for which the link has no room: 65,536 were sent before. Nothing was
    /// written.
    #[error("line {0}: a full link")]
    LinkFull(u32),
    /// With the event on this line the link has carried more than 100,000 packets, the most that a capture has. Nothing
    /// was written.
    #[error("line {0}: more than 100000 packets")]
    TooManyPackets(u32),
    /// Writing failed, after a part of the capture.
    #[error("writing failed")]
    WriteFault,
    /// Out of memory, possibly after a part of the capture.
    #[error("out of memory")]
    OutOfMemory,
}
