//! The clear part of a requester: what it sends, what is outstanding, and what an answer leads to.

pub mod acknowledged;
pub mod answering;
pub mod answers;
pub mod bodies;
pub mod body_outcome;
pub mod clear_state;
pub mod commands;
pub mod gathering;
pub mod hearing;
pub mod negotiating;
pub mod outgoing;
pub mod outstanding;
pub mod reply_outcome;
pub mod resend;
