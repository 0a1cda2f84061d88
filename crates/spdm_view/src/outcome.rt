use pcap_file::PcapFault;
use script_text::LineFault;

/// What the program came to.
#[derive(Clone, Copy, Debug, PartialEq, Eq)]
pub enum Outcome {
    /// All was written.
    Done,
    /// The words are none of the program. Nothing was read.
    Usage,
    /// The first bad line of the text, counted from 1, and its first fault. Nothing was written.
    BadText { line: u32, fault: LineFault },
    /// The event on this line of the script sends a packet for which the link has no room. Nothing was written.
    LinkFull { line: u32 },
    /// With the event on this line of the script a capture has more than 100,000 packets, or a picture more than
    /// 1,000,000 rows. Nothing was written.
    TooMany { line: u32 },
    /// The first fault of the pcap file. Nothing was written.
    BadFile { fault: PcapFault },
    /// Reading failed. Nothing was written.
    ReadFault,
    /// Writing failed, after a part of the output.
    WriteFault,
    /// Out of memory, possibly after a part of the output.
    OutOfMemory,
    /// The text, or the file, has more than 4 MiB. Nothing was written.
    TooLong,
}

impl Outcome {
    ghost use Rattle.std.specs.Prelude.{◌≡◌};
    ghost use Rattle.spdm_view.specs.Status.{status_of};

    /// The exit status.
    pub fn status(self) -> u8
        ensures { result ≡ status_of self }
    {
        match self {
            Outcome::Done => 0,
            Outcome::Usage => 2,
            Outcome::BadText { .. } => 3,
            Outcome::ReadFault => 4,
            Outcome::WriteFault => 5,
            Outcome::OutOfMemory => 6,
            Outcome::TooLong => 8,
            Outcome::LinkFull { .. } => 9,
            Outcome::BadFile { .. } => 10,
            Outcome::TooMany { .. } => 15,
        }
    }
}
