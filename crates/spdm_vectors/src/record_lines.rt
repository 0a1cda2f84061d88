use crate::key_lines::handshake_behind;
use crate::words::{Words, array_of, bytes_of, hex_of, text_of};
use key_schedule::DirectionKey;
use secured_record::{RecordKey, open, seal};
use spdm_basis::{RecordFrame, SessionId};
use std::alloc::Global;

/// Records, under the key of requests of a handshake. Each line has the hash function, the transcript in two pieces, the
/// session id and the number.
pub fn told(alloc: Global, words: &Words<'_>) -> Option<String> {
    let key = handshake_behind(alloc, words.at(1), words.at(2))?.request_key();
    let place = Place::of(words.at(3))?;
    match words.at(0) {
        "seal" => sealed(alloc, &key, place, words.at(4), words.at(5)),
        "open" => opened(alloc, &key, place, words.at(4)),
        "round" => round(alloc, &key, place, words.at(4), words.at(5)),
        "ready" => ready(alloc, &RecordKey::new(key), place, words.at(4), words.at(5)),
        "updated" => ready(alloc, &updated(key)?, place, words.at(4), words.at(5)),
        _ => None,
    }
}

// The session and the number of a record.
#[derive(Clone, Copy)]
struct Place {
    id: SessionId,
    number: u16,
}

impl Place {
    // As in the first six bytes of a record.
    fn of(word: &str) -> Option<Place> {
        let b: [u8; 6] = array_of(word)?;
        Some(Place {
            id: SessionId {
                req: u16::from_le_bytes([b[0], b[1]]),
                rsp: u16::from_le_bytes([b[2], b[3]]),
            },
            number: u16::from_le_bytes([b[4], b[5]]),
        })
    }
}

// The record of an inner message and padding.
fn sealed(
    alloc: Global,
    key: &DirectionKey,
    place: Place,
    inner: &str,
    pad: &str,
) -> Option<String> {
    let (inner, pad) = (bytes_of(alloc, inner)?, bytes_of(alloc, pad)?);
    let mut record = RecordFrame::new();
    match seal(key, place.id, place.number, &inner, &pad, &mut record) {
        Ok(()) => hex_of(alloc, record.as_slice()),
        Err(_) => text_of(alloc, "TooLong"),
    }
}

// The inner message of a record; or its fault, and what is written all the same.
fn opened(alloc: Global, key: &DirectionKey, place: Place, record: &str) -> Option<String> {
    let record = bytes_of(alloc, record)?;
    let mut inner = RecordFrame::new();
    let done = open(key, place.id, place.number, &record, &mut inner);
    let inner = hex_of(alloc, inner.as_slice())?;
    match done {
        Ok(()) => Some(inner),
        Err(fault) => format!(in alloc; "{fault:?} {inner}").ok(),
    }
}

// The length of a record, and whether it opens to its inner message.
fn round(
    alloc: Global,
    key: &DirectionKey,
    place: Place,
    inner: &str,
    pad: &str,
) -> Option<String> {
    let (inner, pad) = (bytes_of(alloc, inner)?, bytes_of(alloc, pad)?);
    let (mut record, mut opened) = (RecordFrame::new(), RecordFrame::new());
    seal(key, place.id, place.number, &inner, &pad, &mut record).ok()?;
    let record = record.as_slice();
    open(key, place.id, place.number, record, &mut opened).ok()?;
    let (size, is_same) = (record.len(), opened.as_slice() == inner.as_slice());
    format!(in alloc; "{size} {is_same}").ok()
}

// A key behind a key update, with its cipher.
fn updated(key: DirectionKey) -> Option<RecordKey> {
    let key = RecordKey::new(key);
    if key.epoch() > 0 {
        return None;
    }
    Some(key.next())
}

// The epoch of a key with its cipher, the record under it, and what the record is opened to.
fn ready(alloc: Global, key: &RecordKey, place: Place, inner: &str, pad: &str) -> Option<String> {
    let (inner, pad) = (bytes_of(alloc, inner)?, bytes_of(alloc, pad)?);
    let (mut record, mut opened) = (RecordFrame::new(), RecordFrame::new());
    key.seal(place.id, place.number, &inner, &pad, &mut record)
        .ok()?;
    key.open(place.id, place.number, record.as_slice(), &mut opened)
        .ok()?;
    let (record, opened) = (
        hex_of(alloc, record.as_slice())?,
        hex_of(alloc, opened.as_slice())?,
    );
    let epoch = key.epoch();
    format!(in alloc; "{epoch} {record} {opened}").ok()
}
