//! What the requester of a capture may have sent, judged by the requester's own code.
//!
//! Read first: `IsAsker` in `specs/JudgedRequester.antt`, what is kept of a requester. The calls to begin with are
//! `JudgedRequester::judge`, for a request, and `JudgedRequester::hears`, for an answer that it heard.
#![tactic(auto)]

mod answer_effect;
mod clear_commands;
mod judged_requester;
mod judged_setup;
mod large_begun;
mod large_carried;
mod large_ended;
mod owed_messages;
mod request_reasons;
mod requests;
mod sealed_commands;
mod sending;

pub use answer_effect::AnswerEffect;
pub use judged_requester::JudgedRequester;
pub use owed_messages::is_first_chunk;
