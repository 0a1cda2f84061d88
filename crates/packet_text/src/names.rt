ghost use Rattle.std.specs.Prelude.{◌≡◌};
ghost use Rattle.spdm_grammar.specs.Message.{request_message, response_message};
ghost use Rattle.packet_text.specs.Blocks.{cause_word};
ghost use Rattle.packet_text.specs.Chunks.{chunk_fault_word};
ghost use Rattle.trace_text.specs.OtherLines.{part_word, request_name, response_name};

use spdm_basis::DropCause;
use spdm_grammar::{ChunkFault, Part, Request, Response};

/// The name of a request (DSP0274, "SPDM request codes").
pub(crate) fn request_name(request: &Request<'_>) -> &'static [u8]
    ensures { result.now ≡ request_name (request_message request.now) }
{
    match request {
        Request::GetVersion => b"GET_VERSION",
        Request::GetCapabilities(_) => b"GET_CAPABILITIES",
        Request::NegotiateAlgorithms(_) => b"NEGOTIATE_ALGORITHMS",
        Request::GetMeasurements { .. } => b"GET_MEASUREMENTS",
        Request::PskExchange(_) => b"PSK_EXCHANGE",
        Request::PskFinish { .. } => b"PSK_FINISH",
        Request::Heartbeat => b"HEARTBEAT",
        Request::KeyUpdate { .. } => b"KEY_UPDATE",
        Request::EndSession => b"END_SESSION",
        Request::ChunkSend(_) => b"CHUNK_SEND",
        Request::ChunkGet { .. } => b"CHUNK_GET",
    }
}

/// The name of a response (DSP0274, "SPDM response codes").
pub(crate) fn response_name(response: &Response<'_>) -> &'static [u8]
    ensures { result.now ≡ response_name (response_message response.now) }
{
    match response {
        Response::Version { .. } => b"VERSION",
        Response::Capabilities(_) => b"CAPABILITIES",
        Response::Algorithms(_) => b"ALGORITHMS",
        Response::Measurements(_) => b"MEASUREMENTS",
        Response::PskExchangeRsp(_) => b"PSK_EXCHANGE_RSP",
        Response::PskFinishRsp => b"PSK_FINISH_RSP",
        Response::HeartbeatAck => b"HEARTBEAT_ACK",
        Response::KeyUpdateAck { .. } => b"KEY_UPDATE_ACK",
        Response::EndSessionAck => b"END_SESSION_ACK",
        Response::ChunkSendAck { .. } => b"CHUNK_SEND_ACK",
        Response::ChunkResponse(_) => b"CHUNK_RESPONSE",
        Response::Error { .. } => b"ERROR",
    }
}

/// The word of the part of a message that is at fault.
pub(crate) fn part_word(part: Part) -> &'static [u8]
    ensures { result.now ≡ part_word part }
{
    match part {
        Part::End => b"end",
        Part::Field => b"field",
        Part::Length => b"length",
        Part::Rest => b"rest",
    }
}

/// The word for why a packet is dropped.
pub(crate) fn cause_word(cause: DropCause) -> &'static [u8]
    ensures { result.now ≡ cause_word cause }
{
    match cause {
        DropCause::NotOurs => b"not-ours",
        DropCause::NoStart => b"no-start",
        DropCause::WrongSequence => b"wrong-sequence",
        DropCause::WrongSize => b"wrong-size",
        DropCause::TooLong => b"too-long",
        DropCause::IntegritySet => b"integrity-set",
    }
}

/// The word for why a chunk is refused.
pub(crate) fn chunk_fault_word(fault: ChunkFault) -> &'static [u8]
    ensures { result.now ≡ chunk_fault_word fault }
{
    match fault {
        ChunkFault::WrongHandle => b"wrong-handle",
        ChunkFault::WrongNumber => b"wrong-number",
        ChunkFault::WrongSize => b"wrong-size",
        ChunkFault::TooLarge => b"too-large",
        ChunkFault::EarlyLast => b"early-last",
        ChunkFault::MissingLast => b"missing-last",
    }
}
