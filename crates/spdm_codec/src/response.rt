ghost use Rattle.std.specs.Prelude.{◌≡◌, ◌<◌, length, IfOk, IsOkAnd, OnOk, OnErr, ◌≤◌};
ghost use Rattle.std.specs.Option.{option_map};
ghost use Rattle.std.specs.Result.{result_ok, result_err};
ghost use Rattle.spdm_grammar.specs.Reading.{read};
ghost use Rattle.spdm_grammar.specs.Responses.{IsResponseSpelling, response_in, response_fault, response_reading, response_body, IsSoundResponse, canonical_response};
ghost use Rattle.spdm_grammar.specs.Codes.{is_response_code};
ghost use Rattle.spdm_grammar.specs.Message.{ResponseMessage, response_message};
ghost use Rattle.spdm_codec.specs.Answer.{Gives};

use crate::algorithms::{read_algorithms, write_algorithms};
use crate::capabilities::{read_caps, write_caps};
use crate::chunk::{read_chunk, read_chunk_send_ack, write_chunk};
use crate::cursor::{Cursor, not_allowed};
use crate::end_session::read_end_session_ack;
use crate::error::read_error;
use crate::exchange_rsp::{read_psk_exchange_rsp, write_psk_exchange_rsp};
use crate::finish::read_psk_finish_rsp;
use crate::heartbeat::read_heartbeat_ack;
use crate::key_update::read_key_update_ack;
use crate::measurements::{read_measurements, write_measurements};
use crate::put::{TooLong, put, put_two};
use crate::version::read_version;
use spdm_basis::Frame;
use spdm_grammar::names::response_code::{
    ALGORITHMS, CAPABILITIES, CHUNK_RESPONSE, CHUNK_SEND_ACK, END_SESSION_ACK, ERROR,
    HEARTBEAT_ACK, KEY_UPDATE_ACK, MEASUREMENTS, PSK_EXCHANGE_RSP, PSK_FINISH_RSP, VERSION,
};
use spdm_grammar::names::spdm_version::{V1_0, V1_2};
use spdm_grammar::names::{MAX_MESSAGE_SIZE, RESPONSES_OF_V1_0, RESPONSES_OF_V1_2, is_one_of};
use spdm_grammar::{Malformed, Response};

// What decides how long the parts of a response are.
#[derive(Clone, Copy)]
struct Lengths {
    hash_len: usize,
    has_summary: bool,
}

// Whether a response of this code is one of this SPDMVersion, 1.0 or 1.2.
fn is_known_code(version: u8, code: u8) -> bool
    ensures { result ≡ is_response_code version code }
{
    if version == V1_0 {
        is_one_of(&RESPONSES_OF_V1_0, code)
    } else {
        is_one_of(&RESPONSES_OF_V1_2, code)
    }
}

// What follows the code.
#[tactic(auto, unfolding(spdm_grammar::specs::Responses::response_body))]
fn read_body<'a>(
    cursor: &mut Cursor<'a>,
    version: u8,
    code: u8,
    lengths: Lengths,
) -> Result<Response<'a>, Malformed>
    ensures { Gives response_message result (read
        (response_body lengths.hash_len lengths.has_summary version code) cursor.old) }
{
    match code {
        VERSION => read_version(cursor),
        ERROR => read_error(cursor, version),
        CAPABILITIES => Ok(Response::Capabilities(read_caps(cursor)?)),
        ALGORITHMS => read_algorithms(cursor),
        MEASUREMENTS => read_measurements(cursor),
        PSK_EXCHANGE_RSP => read_psk_exchange_rsp(cursor, lengths.hash_len, lengths.has_summary),
        PSK_FINISH_RSP => read_psk_finish_rsp(cursor),
        HEARTBEAT_ACK => read_heartbeat_ack(cursor),
        KEY_UPDATE_ACK => read_key_update_ack(cursor),
        END_SESSION_ACK => read_end_session_ack(cursor),
        CHUNK_SEND_ACK => read_chunk_send_ack(cursor),
        _ => Ok(Response::ChunkResponse(read_chunk(cursor)?)),
    }
}

// The response that the bytes encode, or their first fault.
fn read_whole(bytes: &[u8], lengths: Lengths) -> Result<Response<'_>, Malformed>
    ensures { Gives response_message result
        (response_reading lengths.hash_len lengths.has_summary bytes.now) }
{
    let mut cursor = Cursor::new(bytes);
    let version = cursor.byte()?;
    if !matches!(version, V1_0 | V1_2) {
        return Err(not_allowed(0));
    }
    let at = cursor.at();
    let code = cursor.byte()?;
    if !is_known_code(version, code) {
        return Err(not_allowed(at));
    }
    read_body(&mut cursor, version, code, lengths)
}

/// Reads the response that the bytes encode, all of them (DSP0274, section 10). A hash has `hash_len` bytes, and
/// `summary` says whether a measurement summary hash was asked for. Where they encode none, the fault is the first in
/// the order of the fields.
pub fn read_response(
    bytes: &[u8],
    hash_len: usize,
    summary: bool,
) -> Result<Response<'_>, Malformed>
    // The response that the bytes encode, and their first fault, as functions of the bytes.
    ensures value { option_map response_message (result_ok result)
        ≡ response_in hash_len summary bytes.now }
    ensures fault { result_err result ≡ response_fault hash_len summary bytes.now }

    // What is read is encoded, and what is encoded is read.
    ensures found { IfOk result (λ response. IsResponseSpelling hash_len summary
        (response_message response) bytes.now) }
    ensures only { (message : ResponseMessage)
        → IsResponseSpelling hash_len summary message bytes.now →
        IsOkAnd result (λ response. response_message response ≡ message) }
{
    read_whole(
        bytes,
        Lengths {
            hash_len,
            has_summary: summary,
        },
    )
}

/// Overwrites `out` with the canonical encoding of a response: every reserved field is zero. Returns `TooLong` exactly
/// when it passes 4,096 bytes. A hash has `hash_len` bytes, and `summary` says whether a measurement summary hash was
/// asked for.
pub fn write_response(
    message: &Response<'_>,
    hash_len: usize,
    summary: bool,
    out: &mut Frame,
) -> Result<(), TooLong>
    requires { IsSoundResponse hash_len summary (response_message message.now) }
    ensures ok { OnOk result (out.new ≡ canonical_response (response_message message.now)) }
    ensures fits { OnOk result (length out.new ≤ MAX_MESSAGE_SIZE) }
    ensures err { OnErr result (MAX_MESSAGE_SIZE < length (canonical_response
        (response_message message.now))) }
{
    out.clear();
    match message {
        Response::Version { entries } => {
            put(out, &[V1_0, VERSION, 0, 0, 0, (entries.len() / 2) as u8])?;
            put(out, entries)
        }
        Response::Capabilities(caps) => write_caps(CAPABILITIES, caps, out),
        Response::Algorithms(reply) => write_algorithms(reply, out),
        Response::Measurements(measured) => write_measurements(measured, out),
        Response::PskExchangeRsp(exchange) => write_psk_exchange_rsp(exchange, out),
        Response::PskFinishRsp => put(out, &[V1_2, PSK_FINISH_RSP, 0, 0]),
        Response::HeartbeatAck => put(out, &[V1_2, HEARTBEAT_ACK, 0, 0]),
        Response::KeyUpdateAck { op, tag } => put(out, &[V1_2, KEY_UPDATE_ACK, *op, *tag]),
        Response::EndSessionAck => put(out, &[V1_2, END_SESSION_ACK, 0, 0]),
        Response::ChunkSendAck {
            early,
            handle,
            number,
            response,
        } => {
            put(out, &[V1_2, CHUNK_SEND_ACK, u8::from(*early), *handle])?;
            put_two(out, *number)?;
            put(out, response)
        }
        Response::ChunkResponse(chunk) => write_chunk(CHUNK_RESPONSE, chunk, out),
        Response::Error {
            version,
            code,
            detail,
            extended,
        } => {
            put(out, &[*version, ERROR, *code, *detail])?;
            put(out, extended)
        }
    }
}
