ghost use Rattle.std.specs.Prelude.{◌≡◌};

use appraise::Appraisal;
use script_text::LineFault;
use spdm_grammar::Why;

/// The outcome of a command.
#[derive(Clone, Copy, Debug, PartialEq, Eq)]
pub enum Outcome {
    /// Success; all output was written.
    Done,
    /// The capture does not conform: this packet, counted from 1, is the first to differ, for this reason. The verdict
    /// was written.
    Differs { packet: u32, why: Why },
    /// The arguments are no command. Nothing was read.
    Usage,
    /// This line, counted from 1, is the first invalid one. Nothing was written.
    BadScript { line: u32, fault: LineFault },
    /// Reading failed. A command on a stream may have written part of the output for the frames read before; any other
    /// command wrote nothing.
    ReadFault,
    /// Writing failed, possibly after part of the output.
    WriteFault,
    /// Out of memory, possibly after part of the output.
    OutOfMemory,
    /// A command on a stream was given no seed. Nothing was written.
    SeedFault,
    /// The text is longer than 4 MiB, and nothing was written; or the stream of a command is longer than 2^40 bytes, and
    /// the output for its frames up to there was written.
    TooLong,
    /// The event on this line sends a packet for which the link has no room. All output before the packet's line was
    /// written.
    LinkFull { line: u32 },
    /// The frame that begins at this byte of the stream is invalid. The output for the frames before it was written.
    BadFrame { at: u64 },
    /// The keeper of the boot number failed. The seed is gone, and nothing was written.
    KeeperFault,
    /// All boot numbers are used up. The seed is gone, and nothing was written.
    BootsSpent,
    /// The measurements of the responder came, and are not what the policy expects. The stream was read to its end, and
    /// all was written.
    Untrusted { appraisal: Appraisal },
    /// The stream was read to its end, and no measurements came. All was written.
    NoVerdict,
}

impl Outcome {
    ghost use Rattle.spdm_command.specs.OutcomeTable.{status_of, name_of};

    /// The exit status.
    pub fn status(&self) -> u8
        ensures { result ≡ status_of self.now }
    {
        match self {
            Outcome::Done => 0,
            Outcome::Differs { .. } => 1,
            Outcome::Usage => 2,
            Outcome::BadScript { .. } => 3,
            Outcome::ReadFault => 4,
            Outcome::WriteFault => 5,
            Outcome::OutOfMemory => 6,
            Outcome::SeedFault => 7,
            Outcome::TooLong => 8,
            Outcome::LinkFull { .. } => 9,
            Outcome::BadFrame { .. } => 10,
            Outcome::KeeperFault => 11,
            Outcome::BootsSpent => 12,
            Outcome::Untrusted { .. } => 13,
            Outcome::NoVerdict => 14,
        }
    }

    /// The name of the outcome, without its fields.
    pub fn name(&self) -> &'static str
        ensures { result.now ≡ name_of self.now }
    {
        match self {
            Outcome::Done => "Done",
            Outcome::Differs { .. } => "Differs",
            Outcome::Usage => "Usage",
            Outcome::BadScript { .. } => "BadScript",
            Outcome::ReadFault => "ReadFault",
            Outcome::WriteFault => "WriteFault",
            Outcome::OutOfMemory => "OutOfMemory",
            Outcome::SeedFault => "SeedFault",
            Outcome::TooLong => "TooLong",
            Outcome::LinkFull { .. } => "LinkFull",
            Outcome::BadFrame { .. } => "BadFrame",
            Outcome::KeeperFault => "KeeperFault",
            Outcome::BootsSpent => "BootsSpent",
            Outcome::Untrusted { .. } => "Untrusted",
            Outcome::NoVerdict => "NoVerdict",
        }
    }
}
