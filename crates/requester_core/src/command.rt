/// A command to a requester. A session is named by its ReqSessionID.
#[derive(Clone, Copy, Debug, PartialEq, Eq)]
pub enum Command<'a> {
    /// Negotiate again, which ends all sessions.
    Connect,
    /// Open a session, with a measurement summary of this kind: 0, 1 or 255.
    Open { summary: u8 },
    /// Send application data, of at most 1,024 bytes.
    Send { session: u8, bytes: &'a [u8] },
    /// Send HEARTBEAT.
    Beat { session: u8 },
    /// Update the request key, or all keys.
    Update { session: u8, all: bool },
    /// Ask for measurements by an operation, in the clear or in a session.
    Measure { session: Option<u8>, op: u8 },
    /// End a session.
    End { session: u8 },
    /// Send the outstanding message again.
    Retry,
}
