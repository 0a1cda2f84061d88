ghost use Rattle.std.specs.Prelude.{◌≡◌, OnOk, take};
ghost use Rattle.mctp_framing.specs.Packet.{parsed, view_of};
ghost use Rattle.capture_bodies.specs.Answers.{came_as};
ghost use Rattle.capture_bodies.specs.Completing.Completed.{Dropped};
ghost use Rattle.packet_text.specs.Blocks.{block_of, with_completed, with_gathered, with_inside, with_part, with_payload};
ghost use Rattle.packet_text.specs.Shown.{contents_in};

use crate::Shown;
use crate::bodies::add_body;
use crate::chunks::add_large;
use crate::heads::{add_head, add_header};
use crate::names::cause_word;
use crate::records::add_seen;
use capture_bodies::Came;
use mctp_framing::{Packet, PacketView};
use message_fields::add_fields;
use script_text::ScriptConfig;
use spdm_basis::{Bytes, DropCause, OutOfMemory};
use trace_text::{add_hex, add_number, add_word, end_text_line};

// Appends the payload of a packet that is not alone in its body.
fn add_part(view: &PacketView<'_>, text: &mut Bytes) -> Result<(), OutOfMemory>
    ensures { OnOk result (text.new ≡ with_part text.old (view_of view.now)) }
{
    text.extend(b"  part")?;
    add_hex(view.payload, text)?;
    end_text_line(text)
}

// Appends a body that a packet completes.
fn add_gathered(
    view: &PacketView<'_>,
    owner: bool,
    body: &[u8],
    text: &mut Bytes,
) -> Result<(), OutOfMemory>
    ensures { OnOk result (text.new ≡ with_gathered text.old (view_of view.now) owner body.now) }
{
    add_part(view, text)?;
    text.extend(b"  body")?;
    add_number(body.len() as u64, text)?;
    add_word(b"bytes", text)?;
    end_text_line(text)?;
    add_body(owner, body, text)
}

// Appends why a packet is dropped.
fn add_dropped(view: &PacketView<'_>, cause: DropCause, text: &mut Bytes) -> Result<(), OutOfMemory>
    ensures { OnOk result (text.new
        ≡ with_completed text.old (view_of view.now) (Dropped cause)) }
{
    add_part(view, text)?;
    text.extend(b"  dropped")?;
    add_word(cause_word(cause), text)?;
    end_text_line(text)
}

// Appends what a packet completes.
fn add_completed(
    view: &PacketView<'_>,
    came: Came,
    body: &[u8],
    text: &mut Bytes,
) -> Result<(), OutOfMemory>
    ensures { OnOk result (text.new
        ≡ with_completed text.old (view_of view.now) (came_as came body.now)) }
{
    match came {
        Came::Body(owner) => {
            if view.start {
                add_body(owner, body, text)
            } else {
                add_gathered(view, owner, body, text)
            }
        }
        Came::More => add_part(view, text),
        Came::Dropped(cause) => add_dropped(view, cause, text),
    }
}

// Appends what follows the header of a packet.
fn add_payload(
    view: &PacketView<'_>,
    shown: &Shown<'_>,
    text: &mut Bytes,
) -> Result<(), OutOfMemory>
    ensures { OnOk result (text.new
        ≡ with_payload text.old (view_of view.now) (contents_in shown.now)) }
{
    add_completed(view, shown.came, shown.body, text)?;
    add_large(view.owner, shown.part, shown.whole, text)?;
    add_seen(view.owner, shown, text)
}

/// The first four bytes of a packet, or all where there are fewer.
pub(crate) fn header_of(packet: &[u8]) -> &[u8]
    ensures { result.now ≡ take 4 packet.now }
{
    if packet.len() < 4 {
        packet
    } else {
        &packet[..4]
    }
}

// Appends what is inside a packet.
fn add_inside(packet: &[u8], shown: &Shown<'_>, text: &mut Bytes) -> Result<(), OutOfMemory>
    ensures { OnOk result (text.new ≡ with_inside text.old packet.now (parsed packet.now)
        (contents_in shown.now)) }
{
    match Packet::parse(packet) {
        Ok(view) => {
            add_header(header_of(packet), &view, text)?;
            add_payload(&view, shown, text)
        }
        Err(_) => add_fields(&[], packet, text),
    }
}

/// Overwrites a text with the block of a packet.
#[tactic(auto, unfolding(crate::specs::Blocks::block_of))]
pub(crate) fn set_block(
    config: &ScriptConfig,
    number: usize,
    packet: &[u8],
    shown: &Shown<'_>,
    text: &mut Bytes,
) -> Result<(), OutOfMemory>
    ensures { OnOk result (text.new ≡ block_of config.now number packet.now
        (contents_in shown.now)) }
{
    text.clear();
    add_head(config, number, packet, text)?;
    add_inside(packet, shown, text)?;
    end_text_line(text)
}
