use thiserror::Error;

/// Why bytes are no packet (DSP0236, "MCTP packet fields").
#[derive(Clone, Copy, Debug, PartialEq, Eq, Error)]
pub enum PacketFault {
    /// There are fewer than four bytes, so the transport header is not whole.
    #[error("fewer than four bytes")]
    Short,
    /// The header version, the low four bits of the first byte, is not 1.
    #[error("another header version than 1")]
    WrongVersion,
}
