use check_laws::Why;
use script_text::LineFault;
use thiserror::Error;

/// What a capture comes to.
#[derive(Clone, Copy, Debug, PartialEq, Eq)]
pub enum CheckAnswer {
    /// Its ends could have made it. That and its table of sessions were written.
    Conforms,
    /// This packet, counted from 1, is the first that does not conform, for this reason. That was written.
    Differs { packet: u32, why: Why },
}

/// Why a text has no verdict, or why it was not written.
#[derive(Clone, Copy, Debug, PartialEq, Eq, Error)]
pub enum CheckFault {
    /// The first bad line, counted from 1, and its first fault. Nothing was written.
    #[error("line {0}: {1}")]
    Line(u32, LineFault),
    /// The text has more than 4 MiB. Nothing was written.
    #[error("too long")]
    TooLong,
    /// Reading failed. Nothing was written.
    #[error("reading failed")]
    ReadFault,
    /// Writing failed, after a part of the lines.
    #[error("writing failed")]
    WriteFault,
    /// Out of memory. Nothing was written.
    #[error("out of memory")]
    OutOfMemory,
}
