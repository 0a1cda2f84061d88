use crate::{AlgOffer, Caps, ChunkView, Exchange};

/// A request (DSP0274, "SPDM request codes"), with its variable parts lent from the bytes that it was read from.
#[derive(Clone, Copy, Debug, PartialEq, Eq)]
pub enum Request<'a> {
    GetVersion,
    GetCapabilities(Caps),
    NegotiateAlgorithms(AlgOffer<'a>),
    /// `op` is 0 for the number of blocks, 255 for all blocks, else the index of one block.
    GetMeasurements { op: u8 },
    PskExchange(Exchange<'a>),
    /// RequesterVerifyData: as many bytes as the hash has.
    PskFinish { verify: &'a [u8] },
    Heartbeat,
    /// `op` is 1 for UpdateKey, 2 for UpdateAllKeys, 3 for VerifyNewKey.
    KeyUpdate { op: u8, tag: u8 },
    EndSession,
    ChunkSend(ChunkView<'a>),
    ChunkGet { handle: u8, number: u16 },
}

impl Request<'_> {
    ghost use Rattle.std.specs.Prelude.{◌↔◌, IsTrue};
    ghost use Rattle.spdm_grammar.specs.Message.{request_message};
    ghost use Rattle.spdm_grammar.specs.Requests.{IsSoundRequest};

    /// Whether the request has an encoding, where a hash has `hash_len` bytes.
    pub fn is_sound(&self, hash_len: usize) -> bool
        ensures { IsTrue result ↔ IsSoundRequest hash_len (request_message self.now) }
    {
        match *self {
            Request::GetVersion
            | Request::GetCapabilities(_)
            | Request::GetMeasurements { .. }
            | Request::Heartbeat
            | Request::EndSession
            | Request::ChunkGet { .. } => true,
            Request::NegotiateAlgorithms(offer) => offer.is_sound(),
            Request::PskExchange(exchange) => exchange.is_sound(hash_len),
            Request::PskFinish { verify } => verify.len() == hash_len,
            Request::KeyUpdate { op, .. } => op >= 1 && op <= 3,
            Request::ChunkSend(chunk) => chunk.is_sound(),
        }
    }
}
