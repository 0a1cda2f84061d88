/// What the responder puts into PSK_EXCHANGE_RSP (DSP0274, "PSK_EXCHANGE_RSP").
#[derive(Clone, Copy, Debug, PartialEq, Eq)]
pub struct ExchangeParts<'a> {
    /// HeartbeatPeriod: in seconds, 0 for no heartbeat.
    pub heartbeat: u8,
    /// RspSessionID: the responder's half of the session id.
    pub rsp_id: u16,
    /// MeasurementSummaryHash: a hash where one was asked for, else no bytes.
    pub summary: &'a [u8],
    /// ResponderContext: below 65,536 bytes, at least as many as the hash has.
    pub context: &'a [u8],
    /// OpaqueData: at most 1,024 bytes.
    pub opaque: &'a [u8],
}
