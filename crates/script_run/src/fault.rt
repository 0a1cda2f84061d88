use thiserror::Error;

/// Why the events of a script, or of lives, were not run to their end.
#[derive(Clone, Copy, Debug, PartialEq, Eq, Error)]
pub enum RunFault {
    /// The event on this line sends a packet for which the link has no room. All output before the packet's line was
    /// written.
    #[error("line {0}: a full link")]
    LinkFull(u32),
    /// Writing failed, possibly after part of the output.
    #[error("writing failed")]
    WriteFault,
    /// Out of memory, possibly after part of the output.
    #[error("out of memory")]
    OutOfMemory,
}
