ghost use Rattle.std.specs.Prelude.{◌↔◌, IsTrue};
ghost use Rattle.spdm_grammar.specs.Responses.{IsExtended};

use crate::names::error_number::{LARGE_RESPONSE, RESPONSE_TOO_LARGE};
use crate::names::spdm_version::{V1_0, V1_2};
use crate::{AlgReply, Caps, ChunkView, ExchangeRsp, Measured};

/// A response (DSP0274, "SPDM response codes"), with its variable parts lent from the bytes that it was read from.
#[derive(Clone, Copy, Debug, PartialEq, Eq)]
pub enum Response<'a> {
    /// The versions that the responder speaks: two bytes each, little-endian, with the major version in bits 15:12, the
    /// minor one in 11:8, the update in 7:4 and alpha in 3:0.
    Version {
        entries: &'a [u8],
    },
    Capabilities(Caps),
    Algorithms(AlgReply<'a>),
    Measurements(Measured<'a>),
    PskExchangeRsp(ExchangeRsp<'a>),
    PskFinishRsp,
    HeartbeatAck,
    /// `op` is 1 for UpdateKey, 2 for UpdateAllKeys, 3 for VerifyNewKey.
    KeyUpdateAck {
        op: u8,
        tag: u8,
    },
    EndSessionAck,
    /// `early` says that `response` answers the large request before its last chunk came.
    ChunkSendAck {
        early: bool,
        handle: u8,
        number: u16,
        response: &'a [u8],
    },
    ChunkResponse(ChunkView<'a>),
    /// `version` is the SPDMVersion of the message, 0x10 or 0x12. `code` is the number of an `ErrorCode` or any other,
    /// and `detail` its error data. `extended` is four bytes for ResponseTooLarge, one for LargeResponse, and up to 32
    /// for any other code.
    Error {
        version: u8,
        code: u8,
        detail: u8,
        extended: &'a [u8],
    },
}

impl Response<'_> {
    ghost use Rattle.std.specs.Prelude.{◌↔◌, IsTrue};
    ghost use Rattle.spdm_grammar.specs.Message.{response_message};
    ghost use Rattle.spdm_grammar.specs.Responses.{IsSoundResponse};

    /// Whether the response has an encoding, where a hash has `hash_len` bytes and `summary` says whether a measurement
    /// summary hash was asked for.
    pub fn is_sound(&self, hash_len: usize, summary: bool) -> bool
        ensures { IsTrue result ↔ IsSoundResponse hash_len summary (response_message self.now) }
    {
        match *self {
            Response::Capabilities(_)
            | Response::PskFinishRsp
            | Response::HeartbeatAck
            | Response::EndSessionAck
            | Response::ChunkSendAck { .. } => true,
            Response::Version { entries } => entries.len() % 2 == 0 && entries.len() <= 510,
            Response::Algorithms(reply) => reply.is_sound(),
            Response::Measurements(measured) => measured.is_sound(),
            Response::PskExchangeRsp(exchange) => exchange.is_sound(hash_len, summary),
            Response::KeyUpdateAck { op, .. } => op >= 1 && op <= 3,
            Response::ChunkResponse(chunk) => chunk.is_sound(),
            Response::Error {
                version,
                code,
                extended,
                ..
            } => (version == V1_0 || version == V1_2) && is_extended(code, extended),
        }
    }
}

// Whether extended error data have the length that the code wants.
fn is_extended(code: u8, extended: &[u8]) -> bool
    ensures { IsTrue result ↔ IsExtended code extended.now }
{
    match code {
        RESPONSE_TOO_LARGE => extended.len() == 4,
        LARGE_RESPONSE => extended.len() == 1,
        _ => extended.len() <= 32,
    }
}
