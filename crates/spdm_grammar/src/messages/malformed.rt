use thiserror::Error;

/// The part of a message that is at fault.
#[derive(Clone, Copy, Debug, PartialEq, Eq)]
pub enum Part {
    /// The bytes end before a field is whole.
    End,
    /// A field has a value that it may not have.
    Field,
    /// The Length field does not tell the length of the message.
    Length,
    /// Bytes follow the last field.
    Rest,
}

/// Where bytes that encode no message are at fault: the first fault in the order of the fields.
#[derive(Clone, Copy, Debug, PartialEq, Eq, Error)]
#[error("malformed at byte {at}: {what:?}")]
pub struct Malformed {
    /// The offset of the first byte of the field at fault, or of the first byte after the last field; the length of the
    /// bytes where they end too early.
    pub at: usize,
    /// The part at fault.
    pub what: Part,
}
