//! The sessions of a connection and their records.

pub mod ended;
pub mod ended_place;
pub mod live_session;
pub mod records;
pub mod session_slot;
pub mod sessions;
