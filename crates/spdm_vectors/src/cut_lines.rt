use crate::key_lines::handshake_over;
use crate::message_lines::{fault_of, word_of};
use crate::runs::Runs;
use crate::words::{Words, array_of, bytes_of, hex_of, number_of, text_of};
use key_schedule::AppKeys;
use secured_record::RecordKey;
use spdm_basis::{HashAlg, HashBytes, RecordFrame, SessionId};
use spdm_grammar::{Malformed, Part};
use std::alloc::Global;

/// Messages and records of a day cut at every length, and messages with wrong lengths.
pub fn told(alloc: Global, words: &Words<'_>) -> Option<String> {
    match words.at(0) {
        "message" => lengths(alloc, words.at(1), words.at(2)),
        "record" => record(alloc, words.at(1), words.at(2), words.at(3), words.at(4)),
        "field" => field(alloc, words.at(1), words.at(2), words.at(3), words.at(4)),
        _ => None,
    }
}

fn record(alloc: Global, name: &str, th1: &str, th2: &str, record: &str) -> Option<String> {
    let key = key_named(name, array_of(th1)?, array_of(th2)?)?;
    record_lengths(alloc, &key, &bytes_of(alloc, record)?)
}

fn field(alloc: Global, kind: &str, message: &str, at: &str, size: &str) -> Option<String> {
    let message = bytes_of(alloc, message)?;
    variants(alloc, kind, &message, number_of(at)?, number_of(size)?)
}

// The faults of a message at each length up to its own: `cut` where it ends too early, at its length.
fn lengths(alloc: Global, kind: &str, message: &str) -> Option<String> {
    let message = bytes_of(alloc, message)?;
    let mut runs = Runs::new(alloc);
    for size in 0..=message.len() {
        let (cut, _) = message.split_at(size);
        let ends = Malformed {
            at: size,
            what: Part::End,
        };
        let word = match fault_of(kind, cut) {
            Some(fault) if fault == ends => text_of(alloc, "cut")?,
            fault => word_of(alloc, fault)?,
        };
        runs.take(size, word)?;
    }
    Some(runs.finish())
}

// The key of this name: that of the handshake, of application data, or of these updated, and `q` of requests or `r` of
// responses.
fn key_named(name: &str, th1: [u8; 32], th2: [u8; 32]) -> Option<RecordKey> {
    let handshake = handshake_over(HashAlg::Sha256, &HashBytes::from(th1))?;
    let application = AppKeys::derive(&handshake, &HashBytes::from(th2));
    match name {
        "hq" => Some(RecordKey::new(handshake.request_key())),
        "hr" => Some(RecordKey::new(handshake.response_key())),
        "aq" => Some(RecordKey::new(application.request)),
        "ar" => Some(RecordKey::new(application.response)),
        "uq" => Some(RecordKey::new(application.request).next()),
        "ur" => Some(RecordKey::new(application.response).next()),
        _ => None,
    }
}

// The inner message of a record, and what comes of it at each length up to its own.
fn record_lengths(alloc: Global, key: &RecordKey, record: &[u8]) -> Option<String> {
    let number = u16::from_le_bytes([*record.get(4)?, *record.get(5)?]);
    let mut runs = Runs::new(alloc);
    for size in 0..=record.len() {
        let (cut, _) = record.split_at(size);
        runs.take(size, opened(alloc, key, number, cut)?)?;
    }
    Some(runs.finish())
}

// The inner message of a record of session 1 at both ends; or its fault, and what is written all the same.
fn opened(alloc: Global, key: &RecordKey, number: u16, record: &[u8]) -> Option<String> {
    let id = SessionId { req: 1, rsp: 1 };
    let mut inner = RecordFrame::new();
    let done = key.open(id, number, record, &mut inner);
    let inner = hex_of(alloc, inner.as_slice())?;
    match done {
        Ok(()) => Some(inner),
        Err(fault) => format!(in alloc; "{fault:?} {inner}").ok(),
    }
}

// The faults of a message with 0, with one more and with 65,535, or the most that fits, in a field at this place.
fn variants(alloc: Global, kind: &str, message: &[u8], at: usize, size: usize) -> Option<String> {
    let field = message.get(at..at.saturating_add(size))?;
    let number = number_in(field);
    let most = if size == 1 { 255 } else { 65_535 };
    let mut told = String::new(alloc);
    for new in [0, number.wrapping_add(1), most] {
        let variant = variant(alloc, message, at, size, new)?;
        told.push_str(word_of(alloc, fault_of(kind, variant.as_slice()))?.as_str())
            .ok()?;
        told.push(';').ok()?;
    }
    Some(told)
}

// The number in a field, lower byte first.
fn number_in(field: &[u8]) -> u64 {
    field.iter().rev().fold(0, |sum: u64, byte| sum.wrapping_mul(256) | u64::from(*byte))
}

// A message with a number in a field, lower byte first.
fn variant(alloc: Global, message: &[u8], at: usize, size: usize, new: u64) -> Option<Vec<u8>> {
    let mut variant = Vec::from_slice(alloc, message).ok()?;
    for (place, byte) in new.to_le_bytes().iter().take(size).enumerate() {
        *variant.get_mut(at.saturating_add(place))? = *byte;
    }
    Some(variant)
}
