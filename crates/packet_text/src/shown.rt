use capture_bodies::{Came, LargePart};
use capture_records::RecordShown;

/// The contents of a packet.
#[derive(Clone, Copy, Debug, PartialEq, Eq)]
pub struct Shown<'a> {
    /// What it completes.
    pub came: Came,
    /// The body that it completes; of any length where it completes none.
    pub body: &'a [u8],
    /// What it does to a large message in the clear.
    pub part: LargePart,
    /// The large message that is whole with it; of any length where none is.
    pub whole: &'a [u8],
    /// What is shown of a record that it completes.
    pub sealed: RecordShown,
    /// The inner message of a record that opens; of any length where none does.
    pub inner: &'a [u8],
    /// What that does to a large message.
    pub inner_part: LargePart,
    /// The large message that is whole with it; of any length where none is.
    pub inner_whole: &'a [u8],
}
