use crate::{ClearPart, EndedRecord, LiveSession};
use responder_session::AppQueue;
use spdm_grammar::names::SESSION_PLACES;

/// What a connection has in blocks of its own, in bytes: its clear part, its sessions, the last record of one that ended,
/// and the queue of application data. Tested, and not proved.
pub fn connection_blocks() -> usize {
    SESSION_PLACES
        .saturating_mul(size_of::<LiveSession>())
        .saturating_add(size_of::<ClearPart>())
        .saturating_add(size_of::<EndedRecord>())
        .saturating_add(size_of::<AppQueue>())
}
