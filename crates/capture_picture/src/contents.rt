ghost use Rattle.std.specs.Prelude.{◌≡◌, ◌∷◌, ℕ, Ok, Err, IfOk, length, take};
ghost use Rattle.capture_picture.specs.Arrows.{by_lengths, colour_of, counted, of_body, of_clear, of_packet, of_record, of_request, of_response, without_end};
ghost use Rattle.mctp_framing.specs.Packet.{view_of};
ghost use Rattle.spdm_grammar.specs.Message.{request_message, response_message};
ghost use Rattle.spdm_grammar.specs.Requests.{request_reading};
ghost use Rattle.spdm_grammar.specs.Responses.{response_reading};

use mctp_framing::PacketView;
use packet_text::{Lengths, request_hash, response_lengths};
use sequence_picture::{Colour, Style};
use spdm_basis::{Bytes, Line, OutOfMemory};
use spdm_codec::{read_request, read_response};
use spdm_grammar::names::message_type::{SECURED, SPDM};
use spdm_grammar::{Malformed, Request, Response};
use std::alloc::Global;
use std::marker::Model;
use trace_text::{add_hex, add_number, line_malformed, line_request, line_response};

/// What a packet has.
#[derive(Drop)]
pub(crate) struct Content {
    pub(crate) style: Style,
    pub(crate) label: Bytes,
}

impl Model for Content {
    ghost use Rattle.capture_picture.specs.Arrows as arrows;

    ghost Value = { arrows.Content };

    ghost view = { λ c. record { style = c.style; label = c.label } };
}

// A line without its line feed.
fn without_end(line: &[u8]) -> &[u8]
    ensures { result.now ≡ without_end line.now }
{
    match line {
        [front @ .., _] => front,
        [] => line,
    }
}

fn of_read_request(alloc: Global, request: &Request<'_>, len: usize) -> Result<Content, OutOfMemory>
    ensures { IfOk result (λ c. c ≡ of_request len (Ok (request_message request.now))) }
{
    let mut line = Line::new();
    line_request(request, len, &mut line);
    Ok(Content {
        style: Style::Message,
        label: Bytes::copy(alloc, without_end(line.as_slice()))?,
    })
}

fn of_read_response(
    alloc: Global,
    response: &Response<'_>,
    len: usize,
) -> Result<Content, OutOfMemory>
    ensures { IfOk result (λ c. c ≡ of_response len (Ok (response_message response.now))) }
{
    let mut line = Line::new();
    line_response(response, len, &mut line);
    Ok(Content {
        style: Style::Message,
        label: Bytes::copy(alloc, without_end(line.as_slice()))?,
    })
}

fn of_malformed(alloc: Global, malformed: &Malformed) -> Result<Content, OutOfMemory>
    ensures request { (len : ℕ) → IfOk result (λ c. c ≡ of_request len (Err malformed.now)) }
    ensures response { (len : ℕ) → IfOk result (λ c. c ≡ of_response len (Err malformed.now)) }
{
    let mut line = Line::new();
    line_malformed(malformed, &mut line);
    Ok(Content {
        style: Style::Unread,
        label: Bytes::copy(alloc, without_end(line.as_slice()))?,
    })
}

// A message that is read as a request, where a hash has so many bytes.
fn of_request(alloc: Global, hash_len: usize, message: &[u8]) -> Result<Content, OutOfMemory>
    ensures { IfOk result (λ c. c ≡ of_request (length message.now)
        (request_reading hash_len message.now)) }
{
    match read_request(message, hash_len) {
        Ok(request) => of_read_request(alloc, &request, message.len()),
        Err(malformed) => of_malformed(alloc, &malformed),
    }
}

// A message that is read as a response under these lengths.
fn of_response(alloc: Global, lengths: Lengths, message: &[u8]) -> Result<Content, OutOfMemory>
    ensures { IfOk result (λ c. c ≡ by_lengths message.now lengths) }
{
    match read_response(message, lengths.hash_len, lengths.has_summary) {
        Ok(response) => of_read_response(alloc, &response, message.len()),
        Err(malformed) => of_malformed(alloc, &malformed),
    }
}

// A message in the clear.
fn of_clear(alloc: Global, owner: bool, message: &[u8]) -> Result<Content, OutOfMemory>
    ensures { IfOk result (λ c. c ≡ of_clear owner message.now) }
{
    if owner {
        of_request(alloc, request_hash(message), message)
    } else {
        of_response(alloc, response_lengths(message), message)
    }
}

fn colour_of(number: u8) -> Colour
    ensures { result ≡ colour_of number }
{
    if number == 0 {
        Colour::Blue
    } else if number == 1 {
        Colour::Green
    } else if number == 2 {
        Colour::Orange
    } else {
        Colour::Purple
    }
}

// The first four bytes, or all where there are fewer.
fn id_of(message: &[u8]) -> &[u8]
    ensures { result.now ≡ take 4 message.now }
{
    if message.len() < 4 {
        message
    } else {
        &message[..4]
    }
}

// A record.
fn of_record(alloc: Global, message: &[u8]) -> Result<Content, OutOfMemory>
    ensures { IfOk result (λ c. c ≡ of_record message.now) }
{
    let first = message.first().copied().unwrap_or(0);
    let mut label = Bytes::copy(alloc, b"record")?;
    add_hex(id_of(message), &mut label)?;
    add_number(message.len() as u64, &mut label)?;
    Ok(Content {
        style: Style::Record(colour_of(first % 4)),
        label,
    })
}

// Bytes with a word for what they are, and their number.
pub(crate) fn counted(
    alloc: Global,
    style: Style,
    word: &[u8],
    len: usize,
) -> Result<Content, OutOfMemory>
    ensures { IfOk result (λ c. c ≡ counted style word.now len) }
{
    let mut label = Bytes::copy(alloc, word)?;
    add_number(len as u64, &mut label)?;
    Ok(Content { style, label })
}

// A body that is not empty.
fn of_typed(
    alloc: Global,
    owner: bool,
    body_type: u8,
    message: &[u8],
) -> Result<Content, OutOfMemory>
    ensures { IfOk result (λ c. c ≡ of_body owner (body_type ∷ message.now)) }
{
    match body_type {
        SPDM => of_clear(alloc, owner, message),
        SECURED => of_record(alloc, message),
        _ => counted(alloc, Style::Unread, b"other", message.len()),
    }
}

// A whole body.
fn of_body(alloc: Global, owner: bool, body: &[u8]) -> Result<Content, OutOfMemory>
    ensures { IfOk result (λ c. c ≡ of_body owner body.now) }
{
    match body {
        [] => counted(alloc, Style::Unread, b"empty", 0),
        [body_type, message @ ..] => of_typed(alloc, owner, *body_type, message),
    }
}

/// What a packet has.
pub(crate) fn of_packet(alloc: Global, view: &PacketView<'_>) -> Result<Content, OutOfMemory>
    ensures { IfOk result (λ c. c ≡ of_packet (view_of view.now)) }
{
    let len = view.payload.len();
    match (view.start, view.end) {
        (true, true) => of_body(alloc, view.owner, view.payload),
        (true, false) => counted(alloc, Style::Part, b"first part", len),
        (false, true) => counted(alloc, Style::Part, b"last part", len),
        (false, false) => counted(alloc, Style::Part, b"part", len),
    }
}
