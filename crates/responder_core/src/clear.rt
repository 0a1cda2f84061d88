//! The clear part of a connection: the negotiation, requests in the clear and their answers.

pub mod answering;
pub mod answers;
pub mod beginning;
pub mod clear_outcome;
pub mod clear_part;
pub mod clear_place;
pub mod clear_state;
pub mod contents;
pub mod exchange;
pub mod gathering;
pub mod handled_request;
pub mod handling;
pub mod kept;
pub mod negotiating;
pub mod refused;
pub mod request_outcome;
pub mod requests;
pub mod start;
pub mod taking;
pub mod tested;
