ghost use Rattle.std.specs.Prelude.{◌≡◌, true, OnOk};
ghost use Rattle.capture_bodies.specs.Answers.{part_as};
ghost use Rattle.capture_bodies.specs.Collecting.Large.{Awaiting, Whole};
ghost use Rattle.packet_text.specs.Chunks.{with_large};

use crate::bodies::add_clear;
use crate::names::chunk_fault_word;
use capture_bodies::LargePart;
use spdm_basis::{Bytes, OutOfMemory};
use trace_text::{add_number, add_word, end_text_line};

// Appends how many bytes of a large message are there.
fn add_awaiting(held: usize, told: u32, text: &mut Bytes) -> Result<(), OutOfMemory>
    ensures { OnOk result (text.new ≡ with_large text.old true (Awaiting held told)) }
{
    text.extend(b"  chunks")?;
    add_number(held as u64, text)?;
    add_word(b"of", text)?;
    add_number(u64::from(told), text)?;
    add_word(b"bytes", text)?;
    end_text_line(text)
}

// Appends a large message that is whole.
fn add_whole(owner: bool, message: &[u8], text: &mut Bytes) -> Result<(), OutOfMemory>
    ensures { OnOk result (text.new ≡ with_large text.old owner (Whole message.now)) }
{
    text.extend(b"  large")?;
    add_number(message.len() as u64, text)?;
    add_word(b"bytes", text)?;
    end_text_line(text)?;
    add_clear(owner, message, text)
}

/// Appends what a chunk does.
pub(crate) fn add_large(
    owner: bool,
    part: LargePart,
    whole: &[u8],
    text: &mut Bytes,
) -> Result<(), OutOfMemory>
    ensures { OnOk result (text.new ≡ with_large text.old owner (part_as part whole.now)) }
{
    match part {
        LargePart::NoChunk => Ok(()),
        LargePart::Awaiting { held, told } => add_awaiting(held, told, text),
        LargePart::Whole => add_whole(owner, whole, text),
        LargePart::Refused(fault) => {
            text.extend(b"  refused")?;
            add_word(chunk_fault_word(fault), text)?;
            end_text_line(text)
        }
    }
}
