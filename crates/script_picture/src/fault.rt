ghost use Rattle.std.specs.Prelude.{◌≡◌};
ghost use Rattle.script_picture.specs.Drawn.{told_of};

use script_text::{LineFault, ScriptFault};
use thiserror::Error;

/// Why the picture of a text was not written.
#[derive(Clone, Copy, Debug, PartialEq, Eq, Error)]
pub enum DrawFault {
    /// The first bad line of the text, counted from 1, and its first fault. Nothing was written.
    #[error("line {0}: {1}")]
    Line(u32, LineFault),
    /// The event on this line sends a packet for which the link has no room: 65,536 were sent before. Nothing was
    /// written.
    #[error("line {0}: a full link")]
    LinkFull(u32),
    /// With the event on this line the picture has more than 1,000,000 rows. Nothing was written.
    #[error("line {0}: more than 1000000 rows")]
    TooManyRows(u32),
    /// Writing failed, after a part of the picture.
    #[error("writing failed")]
    WriteFault,
    /// Out of memory, possibly after a part of the picture.
    #[error("out of memory")]
    OutOfMemory,
}

impl From<ScriptFault> for DrawFault {
    ghost from_gives = { λ given error. error ≡ told_of given };

    fn from(fault: ScriptFault) -> DrawFault {
        match fault {
            ScriptFault::Line(line, fault) => DrawFault::Line(line, fault),
            ScriptFault::TooManyEvents(line) => DrawFault::Line(line, LineFault::TooManyEvents),
            ScriptFault::OutOfMemory => DrawFault::OutOfMemory,
        }
    }
}
