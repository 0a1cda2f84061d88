ghost use Rattle.std.specs.Prelude.{◌≡◌, OnOk};
ghost use Rattle.mctp_framing.specs.Packet.{parsed, view_of};
ghost use Rattle.capture_bodies.specs.Answers.{came_as};
ghost use Rattle.capture_bodies.specs.Completing.Completed.{Dropped};
ghost use Rattle.packet_text.specs.JsonBlocks.{object_of, with_json_completed, with_json_inside, with_json_part, with_json_payload};
ghost use Rattle.packet_text.specs.JsonBodies.{with_json_body};
ghost use Rattle.packet_text.specs.Shown.{contents_in};

use crate::Shown;
use crate::blocks::header_of;
use crate::json_bodies::{add_fields_member, add_json_body};
use crate::json_chunks::add_json_large;
use crate::json_heads::{add_json_head, add_json_header};
use crate::json_records::add_json_seen;
use crate::names::cause_word;
use capture_bodies::Came;
use mctp_framing::{Packet, PacketView};
use message_fields::{add_bytes_member, add_string_member};
use script_text::ScriptConfig;
use spdm_basis::{Bytes, DropCause, OutOfMemory};
use trace_text::end_text_line;

// Appends the payload of a packet that is not alone in its body.
fn add_part(view: &PacketView<'_>, text: &mut Bytes) -> Result<(), OutOfMemory>
    ensures { OnOk result (text.new ≡ with_json_part text.old (view_of view.now)) }
{
    add_bytes_member(b"part", view.payload, text)
}

// Appends a body that a packet completes, which is not alone in it.
fn add_gathered(
    view: &PacketView<'_>,
    owner: bool,
    body: &[u8],
    text: &mut Bytes,
) -> Result<(), OutOfMemory>
    ensures { OnOk result (text.new
        ≡ with_json_body (with_json_part text.old (view_of view.now)) owner body.now) }
{
    add_part(view, text)?;
    add_json_body(owner, body, text)
}

// Appends why a packet is dropped.
fn add_dropped(view: &PacketView<'_>, cause: DropCause, text: &mut Bytes) -> Result<(), OutOfMemory>
    ensures { OnOk result (text.new
        ≡ with_json_completed text.old (view_of view.now) (Dropped cause)) }
{
    add_part(view, text)?;
    add_string_member(b"dropped", cause_word(cause), text)
}

// Appends what a packet completes.
fn add_completed(
    view: &PacketView<'_>,
    came: Came,
    body: &[u8],
    text: &mut Bytes,
) -> Result<(), OutOfMemory>
    ensures { OnOk result (text.new
        ≡ with_json_completed text.old (view_of view.now) (came_as came body.now)) }
{
    match came {
        Came::Body(owner) => {
            if view.start {
                add_json_body(owner, body, text)
            } else {
                add_gathered(view, owner, body, text)
            }
        }
        Came::More => add_part(view, text),
        Came::Dropped(cause) => add_dropped(view, cause, text),
    }
}

// Appends what follows the header of a packet.
fn add_payload(
    view: &PacketView<'_>,
    shown: &Shown<'_>,
    text: &mut Bytes,
) -> Result<(), OutOfMemory>
    ensures { OnOk result (text.new
        ≡ with_json_payload text.old (view_of view.now) (contents_in shown.now)) }
{
    add_completed(view, shown.came, shown.body, text)?;
    add_json_large(view.owner, shown.part, shown.whole, text)?;
    add_json_seen(view.owner, shown, text)
}

// Appends what is inside a packet.
fn add_inside(packet: &[u8], shown: &Shown<'_>, text: &mut Bytes) -> Result<(), OutOfMemory>
    ensures { OnOk result (text.new ≡ with_json_inside text.old packet.now (parsed packet.now)
        (contents_in shown.now)) }
{
    match Packet::parse(packet) {
        Ok(view) => {
            add_json_header(header_of(packet), &view, text)?;
            add_payload(&view, shown, text)
        }
        Err(_) => add_fields_member(&[], packet, text),
    }
}

/// Overwrites a text with the object of a packet.
#[tactic(auto, unfolding(crate::specs::JsonBlocks::object_of))]
pub(crate) fn set_object(
    config: &ScriptConfig,
    number: usize,
    packet: &[u8],
    shown: &Shown<'_>,
    text: &mut Bytes,
) -> Result<(), OutOfMemory>
    ensures { OnOk result (text.new ≡ object_of config.now number packet.now
        (contents_in shown.now)) }
{
    text.clear();
    add_json_head(config, number, packet, text)?;
    add_inside(packet, shown, text)?;
    text.extend(b"}")?;
    end_text_line(text)
}
