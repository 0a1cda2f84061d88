ghost use Rattle.std.specs.Prelude.{◌≡◌, true, OnOk};
ghost use Rattle.capture_bodies.specs.Answers.{part_as};
ghost use Rattle.capture_bodies.specs.Collecting.Large.{Awaiting, Whole};
ghost use Rattle.packet_text.specs.JsonChunks.{with_counted, with_json_large};

use crate::json_bodies::add_json_clear;
use crate::names::chunk_fault_word;
use capture_bodies::LargePart;
use message_fields::{add_name, add_next_name, add_number_member, add_string_member};
use spdm_basis::{Bytes, OutOfMemory};
use trace_text::add_number;

/// Appends the begin of an object with a number as its first member.
pub(crate) fn add_counted(
    name: &[u8],
    first: &[u8],
    number: u64,
    text: &mut Bytes,
) -> Result<(), OutOfMemory>
    ensures { OnOk result (text.new ≡ with_counted text.old name.now first.now number) }
{
    add_next_name(name, text)?;
    text.extend(b" {")?;
    add_name(first, text)?;
    add_number(number, text)
}

// Appends how many bytes of a large message are there.
fn add_awaiting(held: usize, told: u32, text: &mut Bytes) -> Result<(), OutOfMemory>
    ensures { OnOk result (text.new ≡ with_json_large text.old true (Awaiting held told)) }
{
    add_counted(b"chunks", b"held", held as u64, text)?;
    add_number_member(b"of", u64::from(told), text)?;
    text.extend(b"}")
}

// Appends a large message that is whole.
fn add_whole(owner: bool, message: &[u8], text: &mut Bytes) -> Result<(), OutOfMemory>
    ensures { OnOk result (text.new ≡ with_json_large text.old owner (Whole message.now)) }
{
    add_counted(b"large", b"size", message.len() as u64, text)?;
    add_json_clear(owner, message, text)?;
    text.extend(b"}")
}

/// Appends what a chunk does.
pub(crate) fn add_json_large(
    owner: bool,
    part: LargePart,
    whole: &[u8],
    text: &mut Bytes,
) -> Result<(), OutOfMemory>
    ensures { OnOk result (text.new ≡ with_json_large text.old owner (part_as part whole.now)) }
{
    match part {
        LargePart::NoChunk => Ok(()),
        LargePart::Awaiting { held, told } => add_awaiting(held, told, text),
        LargePart::Whole => add_whole(owner, whole, text),
        LargePart::Refused(fault) => add_string_member(b"refused", chunk_fault_word(fault), text),
    }
}
