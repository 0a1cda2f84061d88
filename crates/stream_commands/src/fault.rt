ghost use Rattle.std.specs.Prelude.{◌≡◌};

use requester_drive::DriveFault;
use responder_serve::ServeFault;
use script_text::{LineFault, ScriptFault};
use spdm_basis::InFault;
use thiserror::Error;

/// Why a stream was not answered to its end.
#[derive(Clone, Copy, Debug, PartialEq, Eq, Error)]
pub enum StreamFault {
    /// This line of the configuration, counted from 1, is the first bad one. Nothing was written.
    #[error("line {line}: {fault}")]
    BadScript { line: u32, fault: LineFault },
    /// Reading failed, possibly after part of the output.
    #[error("reading failed")]
    ReadFault,
    /// Writing failed, possibly after part of the output.
    #[error("writing failed")]
    WriteFault,
    /// No seed was given. Nothing was written.
    #[error("no seed")]
    SeedFault,
    /// The text has more than 4 MiB, and nothing was written; or the stream has more than 2^40 bytes.
    #[error("too long")]
    TooLong,
    /// The frame that begins at this byte of the stream is bad. What the frames before it led to was written.
    #[error("bad frame at byte {at}")]
    BadFrame { at: u64 },
    /// Out of memory. Nothing was written.
    #[error("out of memory")]
    OutOfMemory,
}

impl StreamFault {
    ghost use Rattle.std.specs.Prelude.{◌≡◌};
    ghost use Rattle.stream_commands.specs.Told.{IsDriveTold, IsOfDriving, IsOfStream, IsTold, told_of_reading, told_of_text};

    /// Why no text was read.
    pub fn of_reading(fault: InFault) -> StreamFault
        ensures { result ≡ told_of_reading fault }
    {
        match fault {
            InFault::ReadFault => StreamFault::ReadFault,
            InFault::TooLong => StreamFault::TooLong,
            InFault::OutOfMemory => StreamFault::OutOfMemory,
        }
    }

    /// Why a text is not taken.
    pub fn of_text(fault: ScriptFault) -> StreamFault
        ensures { result ≡ told_of_text fault }
    {
        match fault {
            ScriptFault::Line(line, fault) => StreamFault::BadScript { line, fault },
            ScriptFault::TooManyEvents(line) => StreamFault::BadScript {
                line,
                fault: LineFault::TooManyEvents,
            },
            ScriptFault::OutOfMemory => StreamFault::OutOfMemory,
        }
    }

    /// Why no stream was served to its end. The responder of a configuration that was read is never refused.
    pub fn of_serving(fault: ServeFault) -> StreamFault
        requires { IsOfStream fault }
        ensures { IsTold fault result }
    {
        match fault {
            ServeFault::ReadFault => StreamFault::ReadFault,
            ServeFault::WriteFault => StreamFault::WriteFault,
            ServeFault::TooLong => StreamFault::TooLong,
            ServeFault::BadFrame { at } => StreamFault::BadFrame { at },
            ServeFault::OutOfMemory => StreamFault::OutOfMemory,
            ServeFault::Responder(_) => unreachable!(),
        }
    }

    /// Why no stream was followed to its end. The requester of a configuration that was read is never refused.
    pub fn of_driving(fault: DriveFault) -> StreamFault
        requires { IsOfDriving fault }
        ensures { IsDriveTold fault result }
    {
        match fault {
            DriveFault::ReadFault => StreamFault::ReadFault,
            DriveFault::WriteFault => StreamFault::WriteFault,
            DriveFault::TooLong => StreamFault::TooLong,
            DriveFault::BadFrame { at } => StreamFault::BadFrame { at },
            DriveFault::OutOfMemory => StreamFault::OutOfMemory,
            DriveFault::Requester(_) => unreachable!(),
        }
    }
}
