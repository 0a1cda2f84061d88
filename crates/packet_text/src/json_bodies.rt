ghost use Rattle.std.specs.Prelude.{◌≡◌, ◌∷◌, length, Ok, OnOk};
ghost use Rattle.message_fields.specs.Tables.{record_fields};
ghost use Rattle.spdm_grammar.specs.Message.{request_message, response_message};
ghost use Rattle.spdm_grammar.specs.Requests.{request_reading};
ghost use Rattle.packet_text.specs.JsonBodies.{with_fields_member, with_json_body, with_json_clear, with_json_malformed, with_json_message, with_json_request, with_json_response, with_json_response_by, with_json_type, with_json_typed};
ghost use Rattle.packet_text.specs.Readings.{request_hash, response_lengths};

use crate::names::{part_word, request_name, response_name};
use crate::readings::{Lengths, request_hash, response_lengths};
use message_fields::{
    Field, add_json_fields, add_name, add_next_name, add_number_member, add_string_member,
    record_fields, request_fields, response_fields,
};
use spdm_basis::{Bytes, OutOfMemory};
use spdm_codec::{read_request, read_response};
use spdm_grammar::names::message_type::{SECURED, SPDM};
use spdm_grammar::{Malformed, Request, Response};
use trace_text::add_number;

/// Appends the fields of some bytes.
pub(crate) fn add_fields_member(
    fields: &[Field],
    bytes: &[u8],
    text: &mut Bytes,
) -> Result<(), OutOfMemory>
    ensures { OnOk result (text.new ≡ with_fields_member text.old fields.now bytes.now) }
{
    add_next_name(b"fields", text)?;
    add_json_fields(fields, bytes, text)
}

// Appends a message: its name, its length and its fields.
fn add_message(
    name: &[u8],
    message: &[u8],
    fields: &[Field],
    text: &mut Bytes,
) -> Result<(), OutOfMemory>
    ensures { OnOk result (text.new
        ≡ with_json_message text.old name.now message.now fields.now) }
{
    add_string_member(b"message", name, text)?;
    add_number_member(b"length", message.len() as u64, text)?;
    add_fields_member(fields, message, text)
}

// Appends bytes that are no message: their first fault, and the bytes.
fn add_malformed(malformed: &Malformed, message: &[u8], text: &mut Bytes) -> Result<(), OutOfMemory>
    ensures { OnOk result (text.new ≡ with_json_malformed text.old message.now malformed.now) }
{
    add_string_member(b"malformed", part_word(malformed.what), text)?;
    add_number_member(b"at", malformed.at as u64, text)?;
    add_fields_member(&[], message, text)
}

// Appends a message that is a request.
fn add_read_request(
    request: &Request<'_>,
    message: &[u8],
    text: &mut Bytes,
) -> Result<(), OutOfMemory>
    ensures { OnOk result (text.new
        ≡ with_json_request text.old message.now (Ok (request_message request.now))) }
{
    let fields = request_fields(request);
    add_message(request_name(request), message, fields.as_slice(), text)
}

// Appends a message that is a response.
fn add_read_response(
    response: &Response<'_>,
    message: &[u8],
    text: &mut Bytes,
) -> Result<(), OutOfMemory>
    ensures { OnOk result (text.new
        ≡ with_json_response text.old message.now (Ok (response_message response.now))) }
{
    let fields = response_fields(response);
    add_message(response_name(response), message, fields.as_slice(), text)
}

// Appends a message that is read as a request, where a hash has so many bytes.
fn add_request(hash_len: usize, message: &[u8], text: &mut Bytes) -> Result<(), OutOfMemory>
    ensures { OnOk result (text.new
        ≡ with_json_request text.old message.now (request_reading hash_len message.now)) }
{
    match read_request(message, hash_len) {
        Ok(request) => add_read_request(&request, message, text),
        Err(malformed) => add_malformed(&malformed, message, text),
    }
}

// Appends a message that is read as a response under these lengths.
fn add_response(lengths: Lengths, message: &[u8], text: &mut Bytes) -> Result<(), OutOfMemory>
    ensures { OnOk result (text.new ≡ with_json_response_by text.old message.now lengths) }
{
    match read_response(message, lengths.hash_len, lengths.has_summary) {
        Ok(response) => add_read_response(&response, message, text),
        Err(malformed) => add_malformed(&malformed, message, text),
    }
}

/// Appends a message in the clear.
pub(crate) fn add_json_clear(
    owner: bool,
    message: &[u8],
    text: &mut Bytes,
) -> Result<(), OutOfMemory>
    ensures { OnOk result (text.new ≡ with_json_clear text.old owner message.now) }
{
    if owner {
        add_request(request_hash(message), message, text)
    } else {
        add_response(response_lengths(message), message, text)
    }
}

// Appends the type of a body.
fn add_type(body_type: u8, word: &[u8], text: &mut Bytes) -> Result<(), OutOfMemory>
    ensures { OnOk result (text.new ≡ with_json_type text.old body_type word.now) }
{
    add_next_name(b"body", text)?;
    text.extend(b" {")?;
    add_name(b"type", text)?;
    add_number(u64::from(body_type), text)?;
    add_string_member(b"kind", word, text)
}

// Appends the fields of a record.
fn add_record(message: &[u8], text: &mut Bytes) -> Result<(), OutOfMemory>
    ensures { OnOk result (text.new
        ≡ with_fields_member text.old (record_fields (length message.now)) message.now) }
{
    let fields = record_fields(message.len());
    add_fields_member(fields.as_slice(), message, text)
}

// Appends the members of a body of a type.
#[tactic(auto, unfolding(crate::specs::JsonBodies::with_json_typed))]
fn add_typed(
    owner: bool,
    body_type: u8,
    message: &[u8],
    text: &mut Bytes,
) -> Result<(), OutOfMemory>
    ensures { OnOk result (text.new ≡ with_json_typed text.old owner body_type message.now) }
{
    match body_type {
        SPDM => {
            add_type(body_type, b"SPDM", text)?;
            add_json_clear(owner, message, text)
        }
        SECURED => {
            add_type(body_type, b"secured", text)?;
            add_record(message, text)
        }
        _ => {
            add_type(body_type, b"other", text)?;
            add_fields_member(&[], message, text)
        }
    }
}

// Appends a whole body of a type.
fn add_closed(
    owner: bool,
    body_type: u8,
    message: &[u8],
    text: &mut Bytes,
) -> Result<(), OutOfMemory>
    ensures { OnOk result (text.new
        ≡ with_json_body text.old owner (body_type ∷ message.now)) }
{
    add_typed(owner, body_type, message, text)?;
    text.extend(b"}")
}

/// Appends a whole body.
pub(crate) fn add_json_body(owner: bool, body: &[u8], text: &mut Bytes) -> Result<(), OutOfMemory>
    ensures { OnOk result (text.new ≡ with_json_body text.old owner body.now) }
{
    match body {
        [] => Ok(()),
        [body_type, message @ ..] => add_closed(owner, *body_type, message, text),
    }
}
