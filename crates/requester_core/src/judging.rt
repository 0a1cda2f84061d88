//! Used only by the checker: what a requester would have sent, and how it goes on where that was not sent.

pub mod instead;
pub mod large_requests;
pub mod own_records;
pub mod own_sessions;
pub mod own_slot;
