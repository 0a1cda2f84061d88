ghost use Rattle.std.specs.Prelude.{◌≡◌, ◌<◌, length, ℕ, List, IfOk, IsOkAnd, OnOk, OnErr, ◌≤◌};
ghost use Rattle.std.specs.Option.{option_map};
ghost use Rattle.std.specs.Result.{result_ok, result_err};
ghost use Rattle.spdm_grammar.specs.Reading.{read};
ghost use Rattle.spdm_grammar.specs.Requests.{IsRequestSpelling, request_in, request_fault, request_reading, request_body, IsSoundRequest, canonical_request};
ghost use Rattle.spdm_grammar.specs.Codes.{is_request_code};
ghost use Rattle.spdm_grammar.specs.Message.{RequestMessage, request_message};
ghost use Rattle.spdm_codec.specs.Answer.{Gives};

use crate::algorithms::{read_negotiate_algorithms, write_negotiate_algorithms};
use crate::capabilities::{read_caps, write_caps};
use crate::chunk::{read_chunk, read_chunk_get, write_chunk};
use crate::cursor::{Cursor, not_allowed};
use crate::end_session::read_end_session;
use crate::exchange::{read_psk_exchange, write_psk_exchange};
use crate::finish::read_psk_finish;
use crate::heartbeat::read_heartbeat;
use crate::key_update::read_key_update;
use crate::measurements::read_get_measurements;
use crate::put::{TooLong, put, put_two};
use crate::version::read_get_version;
use spdm_basis::Frame;
use spdm_grammar::names::request_code::{
    CHUNK_GET, CHUNK_SEND, END_SESSION, GET_CAPABILITIES, GET_MEASUREMENTS, GET_VERSION, HEARTBEAT,
    KEY_UPDATE, NEGOTIATE_ALGORITHMS, PSK_EXCHANGE, PSK_FINISH,
};
use spdm_grammar::names::spdm_version::{V1_0, V1_2};
use spdm_grammar::names::{MAX_MESSAGE_SIZE, REQUESTS_OF_V1_2, is_one_of};
use spdm_grammar::{Malformed, Request};

// Whether a request of this code is one of this SPDMVersion, 1.0 or 1.2.
fn is_known_code(version: u8, code: u8) -> bool
    ensures { result ≡ is_request_code version code }
{
    if version == V1_0 {
        code == GET_VERSION
    } else {
        is_one_of(&REQUESTS_OF_V1_2, code)
    }
}

// What follows the code.
#[tactic(auto, unfolding(spdm_grammar::specs::Requests::request_body))]
fn read_body<'a>(
    cursor: &mut Cursor<'a>,
    code: u8,
    hash_len: usize,
) -> Result<Request<'a>, Malformed>
    ensures { Gives request_message result (read (request_body hash_len code) cursor.old) }
{
    match code {
        GET_VERSION => read_get_version(cursor),
        GET_CAPABILITIES => Ok(Request::GetCapabilities(read_caps(cursor)?)),
        NEGOTIATE_ALGORITHMS => read_negotiate_algorithms(cursor),
        GET_MEASUREMENTS => read_get_measurements(cursor),
        PSK_EXCHANGE => read_psk_exchange(cursor, hash_len),
        PSK_FINISH => read_psk_finish(cursor, hash_len),
        HEARTBEAT => read_heartbeat(cursor),
        KEY_UPDATE => read_key_update(cursor),
        END_SESSION => read_end_session(cursor),
        CHUNK_SEND => Ok(Request::ChunkSend(read_chunk(cursor)?)),
        _ => read_chunk_get(cursor),
    }
}

// The request that the bytes encode, or their first fault.
fn read_whole(bytes: &[u8], hash_len: usize) -> Result<Request<'_>, Malformed>
    ensures { Gives request_message result (request_reading hash_len bytes.now) }
{
    let mut cursor = Cursor::new(bytes);
    let version = cursor.byte()?;
    if !matches!(version, V1_0 | V1_2) {
        return Err(not_allowed(0));
    }
    let at = cursor.at();
    let code = cursor.byte()?;
    if !is_known_code(version, code) {
        return Err(not_allowed(at));
    }
    read_body(&mut cursor, code, hash_len)
}

/// Reads the request that the bytes encode, all of them (DSP0274, section 10). A hash has `hash_len` bytes. Where they
/// encode none, the fault is the first in the order of the fields.
pub fn read_request(bytes: &[u8], hash_len: usize) -> Result<Request<'_>, Malformed>
    // The request that the bytes encode, and their first fault, as functions of the bytes.
    ensures value { option_map request_message (result_ok result) ≡ request_in hash_len bytes.now }
    ensures fault { result_err result ≡ request_fault hash_len bytes.now }

    // What is read is encoded, and what is encoded is read.
    ensures found { IfOk result (λ request. IsRequestSpelling hash_len
        (request_message request) bytes.now) }
    ensures only { (message : RequestMessage) → IsRequestSpelling hash_len message bytes.now →
        IsOkAnd result (λ request. request_message request ≡ message) }
{
    read_whole(bytes, hash_len)
}

/// Overwrites `out` with the canonical encoding of a request: every reserved field is zero. Returns `TooLong` exactly
/// when it passes 4,096 bytes. A hash has `hash_len` bytes.
pub fn write_request(message: &Request<'_>, hash_len: usize, out: &mut Frame) -> Result<(), TooLong>
    requires { IsSoundRequest hash_len (request_message message.now) }
    ensures ok { OnOk result (out.new ≡ canonical_request (request_message message.now)) }
    ensures fits { OnOk result (length out.new ≤ MAX_MESSAGE_SIZE) }
    ensures err { OnErr result (MAX_MESSAGE_SIZE < length (canonical_request
        (request_message message.now))) }
{
    out.clear();
    match message {
        Request::GetVersion => put(out, &[V1_0, GET_VERSION, 0, 0]),
        Request::GetCapabilities(caps) => write_caps(GET_CAPABILITIES, caps, out),
        Request::NegotiateAlgorithms(offer) => write_negotiate_algorithms(offer, out),
        Request::GetMeasurements { op } => put(out, &[V1_2, GET_MEASUREMENTS, 0, *op]),
        Request::PskExchange(exchange) => write_psk_exchange(exchange, out),
        Request::PskFinish { verify } => {
            put(out, &[V1_2, PSK_FINISH, 0, 0])?;
            put(out, verify)
        }
        Request::Heartbeat => put(out, &[V1_2, HEARTBEAT, 0, 0]),
        Request::KeyUpdate { op, tag } => put(out, &[V1_2, KEY_UPDATE, *op, *tag]),
        Request::EndSession => put(out, &[V1_2, END_SESSION, 0, 0]),
        Request::ChunkSend(chunk) => write_chunk(CHUNK_SEND, chunk, out),
        Request::ChunkGet { handle, number } => {
            put(out, &[V1_2, CHUNK_GET, 0, *handle])?;
            put_two(out, *number)
        }
    }
}
