use crate::ExchangeOrigin;
use spdm_grammar::ErrorCode;

/// What became of a clear message.
#[derive(Clone, Copy, Debug, PartialEq, Eq)]
pub enum ClearOutcome {
    /// It repeats the last request that was taken, whose response goes again.
    Same,
    /// It was refused with this code.
    Refused(ErrorCode),
    /// The request with this code was answered; `drawn` tells whether its nonce used a draw.
    Answered { code: u8, drawn: bool },
    /// It begins a session, whose PSK_EXCHANGE_RSP is still to be made.
    Begins(ExchangeOrigin),
}
