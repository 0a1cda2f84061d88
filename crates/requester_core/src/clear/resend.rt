/// The outstanding message as it is resent.
#[derive(Clone, Copy, Debug, PartialEq, Eq)]
pub enum Resend {
    /// It is a message in the clear with this tag, which is written.
    InClear { tag: u8 },
    /// It is a record with this tag, which the session with this ReqSessionID keeps.
    InSession { tag: u8, id: u16 },
}
