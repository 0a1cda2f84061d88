ghost use Rattle.std.specs.Prelude.{◌≡◌, ◌++◌, [], OnOk};
ghost use Rattle.capture_difference.specs.Texts.{awaited, difference_text, with_byte_line, with_byte_members, with_change, with_conform, with_difference_lines, with_difference_object, with_spot};
ghost use Rattle.trace_text.specs.OtherLines.{why_word};

use crate::spots::spot_word;
use crate::{Difference, WrongByte};
use message_fields::{add_bytes_member, add_name, add_number_member, add_string_member};
use packet_text::Style;
use spdm_basis::{Bytes, OutOfMemory};
use spdm_grammar::Why;
use trace_text::{add_hex, add_number, add_word, end_text_line};

// The word for a reason, as `check` tells it.
fn why_word(why: Why) -> &'static [u8]
    ensures { result.now ≡ why_word why }
{
    match why {
        Why::BadPacket => b"bad-packet",
        Why::UnknownEnd => b"unknown-end",
        Why::WrongTurn => b"wrong-turn",
        Why::BadRequest => b"bad-request",
        Why::BadReply => b"bad-reply",
        Why::BadVerify => b"bad-verify",
        Why::BadRecord => b"bad-record",
    }
}

// What was awaited where a packet came that does not conform for this reason.
fn awaited(why: Why) -> &'static [u8]
    ensures { result.now ≡ awaited why }
{
    match why {
        Why::BadPacket => {
            b"a packet that its receiver takes, of a body that is an SPDM message or a record"
        }
        Why::UnknownEnd => b"a packet between the responder and a requester of the configuration",
        Why::WrongTurn => {
            b"an answer, or the same request again, while a request waits; else a request with the next tag"
        }
        Why::BadRequest => b"a request that the requester may send here",
        Why::BadReply => b"an answer that the responder may give to the last request",
        Why::BadVerify => b"the verify data of this transcript",
        Why::BadRecord => b"a record that opens under the keys of its session",
    }
}

// Appends the words that say which byte would stand where.
fn add_change(wrong: WrongByte, text: &mut Bytes) -> Result<(), OutOfMemory>
    ensures { OnOk result (text.new ≡ with_change text.old wrong) }
{
    text.extend(b"  with")?;
    add_hex(&[wrong.conforms], text)?;
    add_word(b"in place of", text)?;
    add_hex(&[wrong.came], text)?;
    add_word(b"at byte", text)?;
    add_number(wrong.place as u64, text)?;
    add_word(b"of packet", text)?;
    add_number(wrong.packet as u64, text)
}

// Appends them, and what it stands in.
fn add_spot(wrong: WrongByte, text: &mut Bytes) -> Result<(), OutOfMemory>
    ensures { OnOk result (text.new ≡ with_spot text.old wrong) }
{
    add_change(wrong, text)?;
    text.extend(b", in")?;
    add_word(spot_word(wrong.spot), text)
}

// Appends the end of the line of a byte.
fn add_conform(number: u32, text: &mut Bytes) -> Result<(), OutOfMemory>
    ensures { OnOk result (text.new ≡ with_conform text.old number) }
{
    add_number(u64::from(number), text)?;
    add_word(b"conform", text)?;
    end_text_line(text)
}

// Appends the line of a byte, or that none was found, of the packets up to this number.
fn add_byte_line(byte: Option<WrongByte>, number: u32, text: &mut Bytes) -> Result<(), OutOfMemory>
    ensures { OnOk result (text.new ≡ with_byte_line text.old byte number) }
{
    match byte {
        None => {
            text.extend(b"  with no change of one byte that was tried do all packets up to")?;
            add_conform(number, text)
        }
        Some(wrong) => {
            add_spot(wrong, text)?;
            text.extend(b", all packets up to")?;
            add_conform(number, text)
        }
    }
}

// Appends the lines of a difference.
fn add_lines(told: Difference, text: &mut Bytes) -> Result<(), OutOfMemory>
    ensures { OnOk result (text.new ≡ with_difference_lines text.old told) }
{
    text.extend(b"differs")?;
    add_number(u64::from(told.packet), text)?;
    add_word(why_word(told.why), text)?;
    end_text_line(text)?;
    text.extend(b"  awaited")?;
    add_word(awaited(told.why), text)?;
    end_text_line(text)?;
    add_byte_line(told.byte, told.packet, text)
}

// Appends the members of a byte that is wrong, if one was found.
fn add_byte_members(byte: Option<WrongByte>, text: &mut Bytes) -> Result<(), OutOfMemory>
    ensures { OnOk result (text.new ≡ with_byte_members text.old byte) }
{
    match byte {
        None => Ok(()),
        Some(wrong) => {
            add_number_member(b"byte", wrong.place as u64, text)?;
            add_string_member(b"of", spot_word(wrong.spot), text)?;
            add_number_member(b"in", wrong.packet as u64, text)?;
            add_bytes_member(b"came", &[wrong.came], text)?;
            add_bytes_member(b"conforms", &[wrong.conforms], text)
        }
    }
}

// Appends the object of a difference.
fn add_object(told: Difference, text: &mut Bytes) -> Result<(), OutOfMemory>
    ensures { OnOk result (text.new ≡ with_difference_object text.old told) }
{
    text.extend(b"{")?;
    add_name(b"differs", text)?;
    add_number(u64::from(told.packet), text)?;
    add_string_member(b"why", why_word(told.why), text)?;
    add_string_member(b"awaited", awaited(told.why), text)?;
    add_byte_members(told.byte, text)?;
    text.extend(b"}")?;
    end_text_line(text)
}

/// Overwrites a text with what is told of a capture, in a style.
pub(crate) fn set_difference(
    style: Style,
    told: Option<Difference>,
    text: &mut Bytes,
) -> Result<(), OutOfMemory>
    ensures { OnOk result (text.new ≡ difference_text style told) }
{
    text.clear();
    match told {
        None => Ok(()),
        Some(difference) => match style {
            Style::Words => add_lines(difference, text),
            Style::Json => add_object(difference, text),
        },
    }
}
