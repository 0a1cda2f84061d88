ghost use Rattle.std.specs.Prelude.{◌≡◌, None, OnOk};
ghost use Rattle.mctp_framing.specs.Packet.{parsed, view_of};
ghost use Rattle.packet_text.specs.JsonBlocks.{with_json_eid, with_json_end, with_json_head, with_json_header, with_json_requester, with_json_route};
ghost use Rattle.message_fields.specs.Json.{with_string};
ghost use Rattle.trace_text.specs.Spelling.{requester_word};

use crate::heads::{bit, fault_word};
use capture_records::place_of;
use mctp_framing::{Packet, PacketView};
use message_fields::{
    add_bytes_member, add_name, add_next_name, add_number_member, add_string, add_string_member,
};
use script_text::ScriptConfig;
use spdm_basis::{Bytes, OutOfMemory};
use trace_text::{add_number, begin_with_requester};

// Appends an endpoint that is no end of the configuration.
fn add_eid(eid: u8, text: &mut Bytes) -> Result<(), OutOfMemory>
    ensures { OnOk result (text.new ≡ with_json_eid text.old eid) }
{
    text.extend(b" \"")?;
    text.extend(b"eid")?;
    add_number(u64::from(eid), text)?;
    text.extend(b"\"")
}

// Appends the requester with this number.
fn add_numbered(number: u8, text: &mut Bytes) -> Result<(), OutOfMemory>
    ensures { OnOk result (text.new ≡ with_string text.old (requester_word number)) }
{
    text.extend(b" \"")?;
    begin_with_requester(number, text)?;
    text.extend(b"\"")
}

// Appends the requester at this place, or another endpoint.
fn add_place(eid: u8, place: Option<usize>, text: &mut Bytes) -> Result<(), OutOfMemory>
    ensures { OnOk result (text.new ≡ with_json_requester text.old eid place) }
{
    match place {
        None => add_eid(eid, text),
        Some(place) => {
            if place < 255 {
                add_numbered(place as u8 + 1, text)
            } else {
                add_eid(eid, text)
            }
        }
    }
}

// Appends an end.
fn add_end(config: &ScriptConfig, eid: u8, text: &mut Bytes) -> Result<(), OutOfMemory>
    ensures { OnOk result (text.new ≡ with_json_end text.old config.now eid) }
{
    if config.responder.eid.number() == eid {
        return add_string(b"r", text);
    }
    add_place(eid, place_of(config, eid), text)
}

// Appends who sends a packet to whom.
fn add_route(config: &ScriptConfig, packet: &[u8], text: &mut Bytes) -> Result<(), OutOfMemory>
    ensures { OnOk result (text.new ≡ with_json_route text.old config.now (parsed packet.now)) }
{
    match Packet::parse(packet) {
        Ok(view) => {
            add_next_name(b"from", text)?;
            add_end(config, view.from, text)?;
            add_next_name(b"to", text)?;
            add_end(config, view.to, text)
        }
        Err(fault) => add_string_member(b"fault", fault_word(fault), text),
    }
}

/// Appends the begin of the object of a packet: which one it is.
pub(crate) fn add_json_head(
    config: &ScriptConfig,
    number: usize,
    packet: &[u8],
    text: &mut Bytes,
) -> Result<(), OutOfMemory>
    ensures { OnOk result (text.new ≡ with_json_head text.old config.now number packet.now) }
{
    text.extend(b"{")?;
    add_name(b"packet", text)?;
    add_number(number as u64, text)?;
    add_route(config, packet, text)?;
    add_number_member(b"length", packet.len() as u64, text)
}

/// Appends the header of a packet, of which these are the bytes and the fields.
pub(crate) fn add_json_header(
    header: &[u8],
    view: &PacketView<'_>,
    text: &mut Bytes,
) -> Result<(), OutOfMemory>
    ensures { OnOk result (text.new ≡ with_json_header text.old header.now (view_of view.now)) }
{
    add_next_name(b"header", text)?;
    text.extend(b" {")?;
    add_name(b"destination", text)?;
    add_number(u64::from(view.to), text)?;
    add_number_member(b"source", u64::from(view.from), text)?;
    add_number_member(b"SOM", u64::from(bit(view.start)), text)?;
    add_number_member(b"EOM", u64::from(bit(view.end)), text)?;
    add_number_member(b"sequence", u64::from(view.sequence), text)?;
    add_number_member(b"TO", u64::from(bit(view.owner)), text)?;
    add_number_member(b"tag", u64::from(view.tag), text)?;
    add_bytes_member(b"bytes", header, text)?;
    text.extend(b"}")
}
