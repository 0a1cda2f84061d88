ghost use Rattle.std.specs.Prelude.{◌≡◌};
ghost use Rattle.script_text.specs.declared.texts.faults.LineError.TheVariants.{NoMemory};

use spdm_basis::OutOfMemory;
use thiserror::Error;

/// Why a line of a text is bad, in the order of the checks.
#[derive(Clone, Copy, Debug, PartialEq, Eq, Error)]
pub enum LineFault {
    /// The line has more than 16,384 bytes.
    #[error("more than 16,384 bytes")]
    LineTooLong,
    /// The line begins with no word that it may begin with.
    #[error("an unknown word")]
    Unknown,
    /// An event stands before `end`, or a line of the configuration after it.
    #[error("a line on the wrong side of `end`")]
    Order,
    /// The line has another count of words.
    #[error("another count of words")]
    Words,
    /// A word is no number, or one out of its range.
    #[error("no number, or one out of its range")]
    Number,
    /// A word is no bytes in hexadecimal digits, or has too few or too many.
    #[error("no bytes, or too few or too many")]
    Hex,
    /// A word names no capabilities or algorithms, or MAX passes TRANSFER without chunks.
    #[error("no capabilities or algorithms, or a MAX that needs chunks")]
    Flags,
    /// Eight requesters are configured.
    #[error("a ninth requester")]
    TooMany,
    /// The line, the index of the block or the end was there before.
    #[error("said twice")]
    Twice,
    /// Another end has this endpoint.
    #[error("an end point of another end")]
    SameEid,
    /// Another requester has this pre-shared key.
    #[error("a pre-shared key of another requester")]
    SamePsk,
    /// All blocks together have more than 4,054 bytes.
    #[error("blocks of more than 4,054 bytes")]
    Block,
    /// The requester is not configured.
    #[error("no such requester")]
    NoSuchEnd,
    /// A part of the configuration, or the end of the text, is missing.
    #[error("something is missing")]
    Incomplete,
    /// 100,000 events or packets stand before this one.
    #[error("too many events")]
    TooManyEvents,
}

/// Why a text is not taken.
#[derive(Clone, Copy, Debug, PartialEq, Eq, Error)]
pub enum ScriptFault {
    /// The first bad line, counted from 1, and its first fault.
    #[error("line {0}: {1}")]
    Line(u32, LineFault),
    /// The line of the event or packet after the first 100,000.
    #[error("line {0}: too many events")]
    TooManyEvents(u32),
    #[error("out of memory")]
    OutOfMemory,
}

/// Why a line is not taken.
#[derive(Clone, Copy, Debug, PartialEq, Eq, Error)]
pub enum LineError {
    #[error("{0}")]
    Fault(LineFault),
    #[error("out of memory")]
    NoMemory,
}

impl From<OutOfMemory> for LineError {
    ghost from_gives = { λ _ error. error ≡ NoMemory };

    fn from(_: OutOfMemory) -> LineError {
        LineError::NoMemory
    }
}
