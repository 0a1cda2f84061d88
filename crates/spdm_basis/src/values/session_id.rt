ghost use Rattle.std.specs.Prelude.{◌≡◌};
ghost use Rattle.spdm_basis.specs.SessionIdBytes.{session_id_bytes};

/// A session ID: the halves chosen by requester and responder (DSP0274, "PSK_EXCHANGE"; DSP0277 joins them into four
/// bytes).
#[derive(Clone, Copy, Debug, PartialEq, Eq)]
pub struct SessionId {
    /// ReqSessionID.
    pub req: u16,
    /// RspSessionID.
    pub rsp: u16,
}

impl SessionId {
    /// Both halves, each little-endian: ReqSessionID and then RspSessionID.
    pub fn bytes(&self) -> [u8; 4]
        ensures { result ≡ session_id_bytes self.now.req self.now.rsp }
    {
        let req = self.req;
        let rsp = self.rsp;
        [
            (req % 256) as u8,
            (req / 256) as u8,
            (rsp % 256) as u8,
            (rsp / 256) as u8,
        ]
    }
}
