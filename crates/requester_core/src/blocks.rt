use crate::Slot;
use spdm_grammar::names::SESSION_PLACES;

/// What a requester has in blocks of its own, in bytes: its sessions. Tested, and not proved.
pub fn core_blocks() -> usize {
    SESSION_PLACES.saturating_mul(size_of::<Slot>())
}
