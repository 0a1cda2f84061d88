use thiserror::Error;

/// The frame kinds that a stream may have besides packets.
#[derive(Clone, Copy, Debug, PartialEq, Eq)]
pub struct Kinds {
    /// Seconds that passed: kind 2.
    pub ticks: bool,
    /// Lines with commands: kind 3.
    pub commands: bool,
}

/// What a frame is. The bytes of a packet or of a command are stored in the reader.
#[derive(Clone, Copy, Debug, PartialEq, Eq)]
pub enum FrameKind {
    /// A packet: kind 1, a length of two bytes, little-endian, and so many bytes.
    Packet,
    /// Seconds that passed: kind 2 and four bytes, little-endian.
    Tick(u32),
    /// A line with a command: kind 3, a length of two bytes, little-endian, and so many bytes.
    Command,
}

/// Why no further frame was read.
#[derive(Clone, Copy, Debug, PartialEq, Eq, Error)]
pub enum FrameFault {
    /// Reading failed.
    #[error("reading failed")]
    ReadFault,
    /// The stream has more than 2^40 bytes.
    #[error("the stream is too long")]
    TooLong,
    /// The frame that begins at this byte of the stream has a wrong kind, or is cut by the end of input.
    #[error("bad frame at byte {at}")]
    BadFrame { at: u64 },
}

pub(crate) const PACKET: u8 = 1;

pub(crate) const TICK: u8 = 2;

pub(crate) const COMMAND: u8 = 3;

pub(crate) const LINE: u8 = 4;

impl Kinds {
    ghost use Rattle.std.specs.Prelude.{◌≡◌};
    ghost use Rattle.frame_stream.specs.Frames.{may_be};

    // Whether a frame may have this kind.
    pub(crate) fn allow(self, kind: u8) -> bool
        ensures { result ≡ may_be self kind }
    {
        kind == PACKET || kind == TICK && self.ticks || kind == COMMAND && self.commands
    }
}
