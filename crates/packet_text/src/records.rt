ghost use Rattle.std.specs.Prelude.{◌≡◌, ◌∷◌, OnOk};
ghost use Rattle.packet_text.specs.Records.{closed_words, keys_words, padding_words, record_fault_word, with_data, with_inner, with_seen};
ghost use Rattle.packet_text.specs.Shown.{contents_in};
ghost use Rattle.script_text.specs.Printing.{with_line};

use crate::Shown;
use crate::bodies::{add_clear, add_type};
use crate::chunks::add_large;
use capture_records::{RecordKeys, RecordShown};
use message_fields::add_fields;
use session_keys::APP_DATA;
use spdm_basis::{Bytes, OutOfMemory, RecordFault};
use spdm_grammar::names::message_type::SPDM;
use trace_text::{add_number, add_word, end_text_line};

// Appends application data: how many bytes they are, and the bytes.
#[tactic(auto, unfolding(crate::specs::Records::with_data))]
fn add_data(bytes: &[u8], text: &mut Bytes) -> Result<(), OutOfMemory>
    ensures { OnOk result (text.new ≡ with_data text.old bytes.now) }
{
    text.extend(b"  data")?;
    add_number(bytes.len() as u64, text)?;
    add_word(b"bytes", text)?;
    end_text_line(text)?;
    add_fields(&[], bytes, text)
}

// Appends an inner message with a type.
fn add_typed(
    owner: bool,
    inner_type: u8,
    message: &[u8],
    text: &mut Bytes,
) -> Result<(), OutOfMemory>
    ensures { OnOk result (text.new ≡ with_inner text.old owner (inner_type ∷ message.now)) }
{
    match inner_type {
        SPDM => {
            add_type(inner_type, b"SPDM", text)?;
            add_clear(owner, message, text)
        }
        APP_DATA => {
            add_type(inner_type, b"application", text)?;
            add_data(message, text)
        }
        _ => {
            add_type(inner_type, b"other", text)?;
            add_fields(&[], message, text)
        }
    }
}

// Appends an inner message.
fn add_inner(owner: bool, inner: &[u8], text: &mut Bytes) -> Result<(), OutOfMemory>
    ensures { OnOk result (text.new ≡ with_inner text.old owner inner.now) }
{
    match inner {
        [] => Ok(()),
        [inner_type, message @ ..] => add_typed(owner, *inner_type, message, text),
    }
}

/// The word for why a record does not open.
pub(crate) fn record_fault_word(fault: RecordFault) -> &'static [u8]
    ensures { result.now ≡ record_fault_word fault }
{
    match fault {
        RecordFault::Short => b"short",
        RecordFault::WrongId => b"wrong-id",
        RecordFault::WrongNumber => b"wrong-number",
        RecordFault::WrongLength => b"wrong-length",
        RecordFault::BadTag => b"bad-tag",
        RecordFault::BadInnerLength => b"bad-inner-length",
        RecordFault::KeySpent => b"key-spent",
    }
}

// Appends that a record does not open, and why.
fn add_closed(why: &[u8], text: &mut Bytes) -> Result<(), OutOfMemory>
    ensures { OnOk result (text.new ≡ with_line text.old (closed_words why.now)) }
{
    text.extend(b"  unopened")?;
    add_word(why, text)?;
    end_text_line(text)
}

// Appends the keys that open a record.
fn add_keys(keys: RecordKeys, text: &mut Bytes) -> Result<(), OutOfMemory>
    ensures { OnOk result (text.new ≡ with_line text.old (keys_words keys)) }
{
    text.extend(b"  opened")?;
    match keys {
        RecordKeys::Handshake => {
            add_word(b"handshake", text)?;
            end_text_line(text)
        }
        RecordKeys::Data { epoch } => {
            add_word(b"data", text)?;
            add_word(b"updates", text)?;
            add_number(epoch, text)?;
            end_text_line(text)
        }
    }
}

// Appends how many bytes of padding a record has.
fn add_padding(padding: usize, text: &mut Bytes) -> Result<(), OutOfMemory>
    ensures { OnOk result (text.new ≡ with_line text.old (padding_words padding)) }
{
    text.extend(b"  padding")?;
    add_number(padding as u64, text)?;
    add_word(b"bytes", text)?;
    end_text_line(text)
}

/// Appends what is shown of a record that a packet completes.
pub(crate) fn add_seen(owner: bool, shown: &Shown<'_>, text: &mut Bytes) -> Result<(), OutOfMemory>
    ensures { OnOk result (text.new ≡ with_seen text.old owner (contents_in shown.now).inside
        (contents_in shown.now).seen) }
{
    match shown.sealed {
        RecordShown::NoRecord => Ok(()),
        RecordShown::NoSession => add_closed(b"no-session", text),
        RecordShown::Closed(fault) => add_closed(record_fault_word(fault), text),
        RecordShown::Open { keys, padding } => {
            add_keys(keys, text)?;
            add_padding(padding, text)?;
            add_inner(owner, shown.inner, text)?;
            add_large(owner, shown.inner_part, shown.inner_whole, text)
        }
    }
}
