//! The sessions of a requester.

pub mod in_session;
pub mod record_outcome;
pub mod session_laws;
pub mod sessions;
pub mod slot;
pub mod slot_place;
