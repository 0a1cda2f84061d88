/// The state of a connection (DSP0274, "Message exchanges": which requests were answered).
#[derive(Clone, Copy, Debug, PartialEq, Eq)]
pub enum Phase {
    /// Nothing was negotiated.
    Fresh,
    /// VERSION was given.
    Versioned,
    /// CAPABILITIES were given.
    Capable,
    /// ALGORITHMS were given.
    Negotiated,
}

/// The state of a session (DSP0274, "Session"; Verifying is this project's name).
#[derive(Clone, Copy, Debug, PartialEq, Eq)]
pub enum Stage {
    /// From PSK_EXCHANGE_RSP to PSK_FINISH_RSP.
    Handshake,
    /// Application data and requests are protected by the session's keys.
    Open,
    /// Keys were updated, and VerifyNewKey is awaited.
    Verifying,
}
