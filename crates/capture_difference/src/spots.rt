ghost use Rattle.std.specs.Prelude.{◌≡◌, length};
ghost use Rattle.capture_difference.specs.Spots.{body_spot, message_spot, payload_spot, request_spot, response_spot_by, spot_at, spot_in, spot_word};
ghost use Rattle.mctp_framing.specs.Packet.{parsed};
ghost use Rattle.packet_text.specs.Readings.{request_hash};
ghost use Rattle.spdm_grammar.specs.Requests.{request_reading};

use mctp_framing::Packet;
use message_fields::{Field, Name, record_fields, request_fields, response_fields};
use packet_text::{Lengths, request_hash, response_lengths};
use spdm_codec::{read_request, read_response};
use spdm_grammar::names::message_type::{SECURED, SPDM};

/// Where a byte of a packet stands.
#[derive(Clone, Copy, Debug, PartialEq, Eq)]
pub enum Spot {
    /// In the header of the packet (DSP0236).
    Header,
    /// It is the type of the body.
    BodyType,
    /// In this field of a record, or of a message in the clear.
    InField(Name),
    /// Elsewhere in the payload.
    Payload,
}

// How many bytes the header of a packet has.
const HEADER_LEN: usize = 4;

// The field in which a byte stands.
fn spot_in(fields: &[Field], place: usize) -> Spot
    ensures { result ≡ spot_in fields.now place }
{
    let mut rest = fields;
    let mut left = place;
    while let [first, others @ ..] = rest {
        if left < first.size {
            return Spot::InField(first.name);
        }
        left -= first.size;
        rest = others;
    }
    Spot::Payload
}

// Where a byte of a message stands that is read as a request, where a hash has so many bytes.
fn request_spot(hash_len: usize, message: &[u8], place: usize) -> Spot
    ensures { result ≡ request_spot (request_reading hash_len message.now) place }
{
    match read_request(message, hash_len) {
        Ok(request) => spot_in(request_fields(&request).as_slice(), place),
        Err(_) => Spot::Payload,
    }
}

// Where a byte of a message stands that is read as a response under these lengths.
fn response_spot(lengths: Lengths, message: &[u8], place: usize) -> Spot
    ensures { result ≡ response_spot_by message.now lengths place }
{
    match read_response(message, lengths.hash_len, lengths.has_summary) {
        Ok(response) => spot_in(response_fields(&response).as_slice(), place),
        Err(_) => Spot::Payload,
    }
}

// Where a byte of a message in the clear stands.
fn message_spot(owner: bool, message: &[u8], place: usize) -> Spot
    ensures { result ≡ message_spot owner message.now place }
{
    if owner {
        request_spot(request_hash(message), message, place)
    } else {
        response_spot(response_lengths(message), message, place)
    }
}

// Where a byte of a body stands that is whole in its packet.
fn body_spot(owner: bool, body: &[u8], place: usize) -> Spot
    ensures { result ≡ body_spot owner body.now place }
{
    match body {
        [] => Spot::Payload,
        [kind, message @ ..] => {
            if place == 0 {
                Spot::BodyType
            } else if *kind == SPDM {
                message_spot(owner, message, place - 1)
            } else if *kind == SECURED {
                spot_in(record_fields(message.len()).as_slice(), place - 1)
            } else {
                Spot::Payload
            }
        }
    }
}

// Where a byte of the payload of a packet stands.
fn payload_spot(packet: &[u8], place: usize) -> Spot
    ensures { result ≡ payload_spot (parsed packet.now) place }
{
    match Packet::parse(packet) {
        Ok(view) => {
            if view.start && view.end {
                body_spot(view.owner, view.payload, place)
            } else {
                Spot::Payload
            }
        }
        Err(_) => Spot::Payload,
    }
}

/// Where a byte of a packet stands, counted from 0.
pub(crate) fn spot_at(packet: &[u8], place: usize) -> Spot
    ensures { result ≡ spot_at packet.now place }
{
    if place < HEADER_LEN {
        Spot::Header
    } else {
        payload_spot(packet, place - HEADER_LEN)
    }
}

/// The word for where a byte stands: of a field its name.
pub(crate) fn spot_word(spot: Spot) -> &'static [u8]
    ensures { result.now ≡ spot_word spot }
{
    match spot {
        Spot::Header => b"header",
        Spot::BodyType => b"type",
        Spot::InField(name) => name.text(),
        Spot::Payload => b"payload",
    }
}
