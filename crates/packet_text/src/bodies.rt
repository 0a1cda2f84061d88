ghost use Rattle.std.specs.Prelude.{◌≡◌, ◌∷◌, Ok, Err, OnOk};
ghost use Rattle.spdm_grammar.specs.Message.{request_message, response_message};
ghost use Rattle.packet_text.specs.Bodies.{with_body, with_clear, with_request, with_response, with_response_by};
ghost use Rattle.packet_text.specs.Readings.{request_hash, response_lengths};
ghost use Rattle.spdm_grammar.specs.Requests.{request_reading};
ghost use Rattle.spdm_grammar.specs.Responses.{response_reading};
ghost use Rattle.script_text.specs.Printing.{with_line};
ghost use Rattle.packet_text.specs.Bodies.{type_words};

use crate::readings::{Lengths, request_hash, response_lengths};
use message_fields::{add_fields, record_fields, request_fields, response_fields};
use spdm_basis::{Bytes, Line, OutOfMemory};
use spdm_codec::{read_request, read_response};
use spdm_grammar::names::message_type::{SECURED, SPDM};
use spdm_grammar::{Malformed, Request, Response};
use trace_text::{add_hex, add_word, end_text_line, line_malformed, line_request, line_response};

// Appends a message that is a request: its name, its length and its fields.
fn add_read_request(
    request: &Request<'_>,
    message: &[u8],
    text: &mut Bytes,
) -> Result<(), OutOfMemory>
    ensures { OnOk result (text.new
        ≡ with_request text.old message.now (Ok (request_message request.now))) }
{
    let mut line = Line::new();
    line_request(request, message.len(), &mut line);
    text.extend(b"  ")?;
    text.extend(line.as_slice())?;
    add_fields(request_fields(request).as_slice(), message, text)
}

// Appends a message that is a response: its name, its length and its fields.
fn add_read_response(
    response: &Response<'_>,
    message: &[u8],
    text: &mut Bytes,
) -> Result<(), OutOfMemory>
    ensures { OnOk result (text.new
        ≡ with_response text.old message.now (Ok (response_message response.now))) }
{
    let mut line = Line::new();
    line_response(response, message.len(), &mut line);
    text.extend(b"  ")?;
    text.extend(line.as_slice())?;
    add_fields(response_fields(response).as_slice(), message, text)
}

// Appends bytes that are no message: their first fault, and the bytes.
fn add_malformed(malformed: &Malformed, message: &[u8], text: &mut Bytes) -> Result<(), OutOfMemory>
    ensures request { OnOk result (text.new
        ≡ with_request text.old message.now (Err malformed.now)) }
    ensures response { OnOk result (text.new
        ≡ with_response text.old message.now (Err malformed.now)) }
{
    let mut line = Line::new();
    line_malformed(malformed, &mut line);
    text.extend(b"  ")?;
    text.extend(line.as_slice())?;
    add_fields(&[], message, text)
}

// Appends a message that is read as a request, where a hash has so many bytes.
fn add_request(hash_len: usize, message: &[u8], text: &mut Bytes) -> Result<(), OutOfMemory>
    ensures { OnOk result (text.new
        ≡ with_request text.old message.now (request_reading hash_len message.now)) }
{
    match read_request(message, hash_len) {
        Ok(request) => add_read_request(&request, message, text),
        Err(malformed) => add_malformed(&malformed, message, text),
    }
}

// Appends a message that is read as a response under these lengths.
fn add_response(lengths: Lengths, message: &[u8], text: &mut Bytes) -> Result<(), OutOfMemory>
    ensures { OnOk result (text.new ≡ with_response_by text.old message.now lengths) }
{
    match read_response(message, lengths.hash_len, lengths.has_summary) {
        Ok(response) => add_read_response(&response, message, text),
        Err(malformed) => add_malformed(&malformed, message, text),
    }
}

/// Appends a message in the clear.
pub(crate) fn add_clear(owner: bool, message: &[u8], text: &mut Bytes) -> Result<(), OutOfMemory>
    ensures { OnOk result (text.new ≡ with_clear text.old owner message.now) }
{
    if owner {
        add_request(request_hash(message), message, text)
    } else {
        add_response(response_lengths(message), message, text)
    }
}

/// Appends the line of the type of a body.
pub(crate) fn add_type(body_type: u8, word: &[u8], text: &mut Bytes) -> Result<(), OutOfMemory>
    ensures { OnOk result (text.new ≡ with_line text.old (type_words body_type word.now)) }
{
    text.extend(b"  type")?;
    add_hex(&[body_type], text)?;
    add_word(word, text)?;
    end_text_line(text)
}

// Appends what follows the type of a body.
fn add_typed(
    owner: bool,
    body_type: u8,
    message: &[u8],
    text: &mut Bytes,
) -> Result<(), OutOfMemory>
    ensures { OnOk result (text.new ≡ with_body text.old owner (body_type ∷ message.now)) }
{
    match body_type {
        SPDM => {
            add_type(body_type, b"SPDM", text)?;
            add_clear(owner, message, text)
        }
        SECURED => {
            add_type(body_type, b"secured", text)?;
            add_fields(record_fields(message.len()).as_slice(), message, text)
        }
        _ => {
            add_type(body_type, b"other", text)?;
            add_fields(&[], message, text)
        }
    }
}

/// Appends a whole body.
pub(crate) fn add_body(owner: bool, body: &[u8], text: &mut Bytes) -> Result<(), OutOfMemory>
    ensures { OnOk result (text.new ≡ with_body text.old owner body.now) }
{
    match body {
        [] => Ok(()),
        [body_type, message @ ..] => add_typed(owner, *body_type, message, text),
    }
}
