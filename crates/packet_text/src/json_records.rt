ghost use Rattle.std.specs.Prelude.{◌≡◌, OnOk};
ghost use Rattle.packet_text.specs.JsonRecords.{with_json_closed, with_json_data, with_json_inner, with_json_inner_type, with_json_inner_typed, with_json_keys, with_json_seen, with_record};
ghost use Rattle.packet_text.specs.Shown.{contents_in};

use crate::Shown;
use crate::json_bodies::{add_fields_member, add_json_clear};
use crate::json_chunks::{add_counted, add_json_large};
use crate::records::record_fault_word;
use capture_records::{RecordKeys, RecordShown};
use message_fields::{add_name, add_next_name, add_number_member, add_string, add_string_member};
use session_keys::APP_DATA;
use spdm_basis::{Bytes, OutOfMemory};
use spdm_grammar::names::message_type::SPDM;

// Appends the type of an inner message.
fn add_inner_type(inner_type: u8, word: &[u8], text: &mut Bytes) -> Result<(), OutOfMemory>
    ensures { OnOk result (text.new ≡ with_json_inner_type text.old inner_type word.now) }
{
    add_counted(b"inner", b"type", u64::from(inner_type), text)?;
    add_string_member(b"kind", word, text)
}

// Appends application data, with its length.
fn add_data(bytes: &[u8], text: &mut Bytes) -> Result<(), OutOfMemory>
    ensures { OnOk result (text.new ≡ with_json_data text.old bytes.now) }
{
    add_number_member(b"length", bytes.len() as u64, text)?;
    add_fields_member(&[], bytes, text)
}

// Appends the members of an inner message with a type.
#[tactic(auto, unfolding(crate::specs::JsonRecords::with_json_inner_typed))]
fn add_typed(
    owner: bool,
    inner_type: u8,
    message: &[u8],
    text: &mut Bytes,
) -> Result<(), OutOfMemory>
    ensures { OnOk result (text.new
        ≡ with_json_inner_typed text.old owner inner_type message.now) }
{
    match inner_type {
        SPDM => {
            add_inner_type(inner_type, b"SPDM", text)?;
            add_json_clear(owner, message, text)
        }
        APP_DATA => {
            add_inner_type(inner_type, b"application", text)?;
            add_data(message, text)
        }
        _ => {
            add_inner_type(inner_type, b"other", text)?;
            add_fields_member(&[], message, text)
        }
    }
}

// Appends an inner message.
fn add_inner(owner: bool, inner: &[u8], text: &mut Bytes) -> Result<(), OutOfMemory>
    ensures { OnOk result (text.new ≡ with_json_inner text.old owner inner.now) }
{
    match inner {
        [] => Ok(()),
        [inner_type, message @ ..] => {
            add_typed(owner, *inner_type, message, text)?;
            text.extend(b"}")
        }
    }
}

// Appends the begin of the object of a record, with its first member.
fn add_record(first: &[u8], word: &[u8], text: &mut Bytes) -> Result<(), OutOfMemory>
    ensures { OnOk result (text.new ≡ with_record text.old first.now word.now) }
{
    add_next_name(b"record", text)?;
    text.extend(b" {")?;
    add_name(first, text)?;
    add_string(word, text)
}

// Appends that a record does not open, and why.
fn add_closed(why: &[u8], text: &mut Bytes) -> Result<(), OutOfMemory>
    ensures { OnOk result (text.new ≡ with_json_closed text.old why.now) }
{
    add_record(b"unopened", why, text)?;
    text.extend(b"}")
}

// Appends the keys that open a record.
fn add_keys(keys: RecordKeys, text: &mut Bytes) -> Result<(), OutOfMemory>
    ensures { OnOk result (text.new ≡ with_json_keys text.old keys) }
{
    match keys {
        RecordKeys::Handshake => add_record(b"opened", b"handshake", text),
        RecordKeys::Data { epoch } => {
            add_record(b"opened", b"data", text)?;
            add_number_member(b"updates", epoch, text)
        }
    }
}

/// Appends what is shown of a record that a packet completes.
pub(crate) fn add_json_seen(
    owner: bool,
    shown: &Shown<'_>,
    text: &mut Bytes,
) -> Result<(), OutOfMemory>
    ensures { OnOk result (text.new ≡ with_json_seen text.old owner
        (contents_in shown.now).inside (contents_in shown.now).seen) }
{
    match shown.sealed {
        RecordShown::NoRecord => Ok(()),
        RecordShown::NoSession => add_closed(b"no-session", text),
        RecordShown::Closed(fault) => add_closed(record_fault_word(fault), text),
        RecordShown::Open { keys, padding } => {
            add_keys(keys, text)?;
            add_number_member(b"padding", padding as u64, text)?;
            add_inner(owner, shown.inner, text)?;
            add_json_large(owner, shown.inner_part, shown.inner_whole, text)?;
            text.extend(b"}")
        }
    }
}
