use spdm_grammar::ErrorCode;
use spdm_grammar::names::request_code::{CHUNK_SEND, PSK_EXCHANGE};

/// How a PSK_EXCHANGE that begins a session arrived.
#[derive(Clone, Copy, Debug, PartialEq, Eq)]
pub enum ExchangeOrigin {
    /// In a message of its own.
    InClear,
    /// In a large request, whose last chunk has this handle and number.
    InChunks { handle: u8, number: u16 },
}

impl ExchangeOrigin {
    ghost use Rattle.std.specs.Prelude.{◌≡◌, ℕ, List};
    ghost use Rattle.responder_machine.specs.Answer.{Free};
    ghost use Rattle.responder_machine.specs.Place.{Place};
    ghost use Rattle.responder_machine.specs.Refusal.{code_of};
    ghost use Rattle.responder_machine.specs.Setup.{RspSetup};
    ghost use Rattle.responder_core.specs.Coming.{IsBegun, Seen};

    /// The code of the request that it arrived in.
    pub fn code(self) -> u8
        ensures { (r : RspSetup) (p : Place) (m : List ℕ) (f : Free) (seen : Seen)
            → IsBegun r p m f self seen → result ≡ code_of m }
    {
        match self {
            ExchangeOrigin::InClear => PSK_EXCHANGE,
            ExchangeOrigin::InChunks { .. } => CHUNK_SEND,
        }
    }
}

/// The outcome of a request in the clear.
#[derive(Clone, Copy, Debug, PartialEq, Eq)]
pub enum RequestOutcome {
    /// It is refused with this code.
    Refused(ErrorCode),
    /// The request with this code is answered; `drawn` tells whether its nonce used a draw.
    Answered { code: u8, drawn: bool },
    /// It begins a session, whose PSK_EXCHANGE_RSP is still to be made.
    Begins(ExchangeOrigin),
}
