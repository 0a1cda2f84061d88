ghost use Rattle.std.specs.Prelude.{◌≡◌, None, OnOk};
ghost use Rattle.std.specs.Fmt.{decimal};
ghost use Rattle.trace_text.specs.Spelling.{with_word};
ghost use Rattle.mctp_framing.specs.Packet.{bit, parsed, view_of};
ghost use Rattle.packet_text.specs.Blocks.{fault_word, header_words, with_end, with_head, with_requester, with_route};
ghost use Rattle.script_text.specs.Printing.{with_line};

use capture_records::place_of;
use mctp_framing::{Packet, PacketView};
use script_text::ScriptConfig;
use spdm_basis::{Bytes, OutOfMemory, PacketFault};
use trace_text::{add_hex, add_number, add_requester, add_word, end_text_line};

// Puts an endpoint that is no end of the configuration after the words of a line.
fn add_eid(eid: u8, text: &mut Bytes) -> Result<(), OutOfMemory>
    ensures { OnOk result (text.new ≡ with_requester text.old eid None) }
{
    add_word(b"eid", text)?;
    add_number(u64::from(eid), text)
}

// Puts the requester at this place, or another endpoint, after the words of a line.
fn add_place(eid: u8, place: Option<usize>, text: &mut Bytes) -> Result<(), OutOfMemory>
    ensures { OnOk result (text.new ≡ with_requester text.old eid place) }
{
    match place {
        None => add_eid(eid, text),
        Some(place) => {
            if place < 255 {
                add_requester(place as u8 + 1, text)
            } else {
                add_eid(eid, text)
            }
        }
    }
}

// Puts an end after the words of a line.
fn add_end(config: &ScriptConfig, eid: u8, text: &mut Bytes) -> Result<(), OutOfMemory>
    ensures { OnOk result (text.new ≡ with_end text.old config.now eid) }
{
    if config.responder.eid.number() == eid {
        return add_word(b"r", text);
    }
    add_place(eid, place_of(config, eid), text)
}

/// The word for why bytes are no packet.
pub(crate) fn fault_word(fault: PacketFault) -> &'static [u8]
    ensures { result.now ≡ fault_word fault }
{
    match fault {
        PacketFault::Short => b"short",
        PacketFault::WrongVersion => b"wrong-version",
    }
}

// Puts who sends a packet to whom after the words of a line.
fn add_route(config: &ScriptConfig, packet: &[u8], text: &mut Bytes) -> Result<(), OutOfMemory>
    ensures { OnOk result (text.new ≡ with_route text.old config.now (parsed packet.now)) }
{
    match Packet::parse(packet) {
        Ok(view) => {
            add_word(b"from", text)?;
            add_end(config, view.from, text)?;
            add_word(b"to", text)?;
            add_end(config, view.to, text)
        }
        Err(fault) => add_word(fault_word(fault), text),
    }
}

/// Appends the first line of a packet.
pub(crate) fn add_head(
    config: &ScriptConfig,
    number: usize,
    packet: &[u8],
    text: &mut Bytes,
) -> Result<(), OutOfMemory>
    ensures { OnOk result (text.new ≡ with_head text.old config.now number packet.now) }
{
    text.extend(b"packet")?;
    add_number(number as u64, text)?;
    add_route(config, packet, text)?;
    add_number(packet.len() as u64, text)?;
    add_word(b"bytes", text)?;
    end_text_line(text)
}

/// A bit as a number.
pub(crate) fn bit(is_set: bool) -> u8
    ensures { result ≡ bit is_set }
{
    if is_set { 1 } else { 0 }
}

// Puts a name and a number after the words of a line.
fn add_field(name: &[u8], number: u8, text: &mut Bytes) -> Result<(), OutOfMemory>
    ensures { OnOk result (text.new ≡ with_word (with_word text.old name.now) (decimal number)) }
{
    add_word(name, text)?;
    add_number(u64::from(number), text)
}

/// Appends the line of the header of a packet, of which these are the bytes and the fields.
pub(crate) fn add_header(
    header: &[u8],
    view: &PacketView<'_>,
    text: &mut Bytes,
) -> Result<(), OutOfMemory>
    ensures { OnOk result (text.new
        ≡ with_line text.old (header_words header.now (view_of view.now))) }
{
    text.extend(b"  header")?;
    add_hex(header, text)?;
    add_field(b"destination", view.to, text)?;
    add_field(b"source", view.from, text)?;
    add_field(b"SOM", bit(view.start), text)?;
    add_field(b"EOM", bit(view.end), text)?;
    add_field(b"sequence", view.sequence, text)?;
    add_field(b"TO", bit(view.owner), text)?;
    add_field(b"tag", view.tag, text)?;
    end_text_line(text)
}
