/// The values that a requester chooses for PSK_EXCHANGE.
#[derive(Clone, Copy)]
pub struct FreeValues<'a> {
    /// ReqSessionID: from 1 to 4, and of no live session.
    pub id: u16,
    /// RequesterContext: at least as many bytes as the hash has.
    pub context: &'a [u8],
    /// OpaqueData: at most 1,024 bytes.
    pub opaque: &'a [u8],
}
