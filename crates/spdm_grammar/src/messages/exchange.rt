/// What begins a session, in PSK_EXCHANGE (DSP0274, "PSK_EXCHANGE request message format").
#[derive(Clone, Copy, Debug, PartialEq, Eq)]
pub struct Exchange<'a> {
    /// MeasurementSummaryHashType: 0 for none, 1 for the trusted computing base, 255 for all.
    pub summary: u8,
    /// ReqSessionID: the requester's half of the session id.
    pub req_id: u16,
    /// PSKHint: which pre-shared key is meant.
    pub hint: &'a [u8],
    /// RequesterContext: at least as many bytes as the hash has.
    pub context: &'a [u8],
    /// OpaqueData: at most 1,024 bytes.
    pub opaque: &'a [u8],
}

/// The answer to it, in PSK_EXCHANGE_RSP (DSP0274, "PSK_EXCHANGE_RSP response message format").
#[derive(Clone, Copy, Debug, PartialEq, Eq)]
pub struct ExchangeRsp<'a> {
    /// HeartbeatPeriod: in seconds, 0 for no heartbeat.
    pub heartbeat: u8,
    /// RspSessionID: the responder's half of the session id.
    pub rsp_id: u16,
    /// MeasurementSummaryHash: a hash where one was asked for, else no bytes.
    pub summary: &'a [u8],
    /// ResponderContext: at least as many bytes as the hash has.
    pub context: &'a [u8],
    /// OpaqueData: at most 1,024 bytes.
    pub opaque: &'a [u8],
    /// ResponderVerifyData: as many bytes as the hash has.
    pub verify: &'a [u8],
}

impl Exchange<'_> {
    ghost use Rattle.std.specs.Prelude.{◌↔◌, IsTrue};
    ghost use Rattle.spdm_grammar.specs.Message.{exchange_message};
    ghost use Rattle.spdm_grammar.specs.Requests.{IsSoundExchange};

    /// Whether the exchange has an encoding, where a hash has `hash_len` bytes.
    pub fn is_sound(&self, hash_len: usize) -> bool
        ensures { IsTrue result ↔ IsSoundExchange hash_len (exchange_message self.now) }
    {
        matches!(self.summary, 0 | 1 | 255)
            && self.hint.len() < 0x10000
            && self.context.len() >= hash_len
            && self.context.len() < 0x10000
            && self.opaque.len() <= 1024
    }
}

impl ExchangeRsp<'_> {
    ghost use Rattle.std.specs.Prelude.{◌↔◌, IsTrue};
    ghost use Rattle.spdm_grammar.specs.Message.{exchange_rsp_message};
    ghost use Rattle.spdm_grammar.specs.Responses.{IsSoundExchangeRsp};

    /// Whether the answer has an encoding, where a hash has `hash_len` bytes and `summary` says whether a measurement
    /// summary hash was asked for.
    pub fn is_sound(&self, hash_len: usize, summary: bool) -> bool
        ensures { IsTrue result ↔ IsSoundExchangeRsp hash_len summary
            (exchange_rsp_message self.now) }
    {
        let summary_len = if summary { hash_len } else { 0 };
        self.summary.len() == summary_len
            && self.context.len() >= hash_len
            && self.context.len() < 0x10000
            && self.opaque.len() <= 1024
            && self.verify.len() == hash_len
    }
}
