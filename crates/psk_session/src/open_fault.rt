use thiserror::Error;

/// Why a message is no response to PSK_EXCHANGE, in the order of the checks.
#[derive(Clone, Copy, Debug, PartialEq, Eq, Error)]
pub enum OpenFault {
    /// It is no PSK_EXCHANGE_RSP, at this byte.
    #[error("malformed at byte {0}")]
    Malformed(usize),
    /// ResponderVerifyData is wrong.
    #[error("wrong verify data")]
    BadVerify,
}
