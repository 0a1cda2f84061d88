//! What the responder of a capture may have answered to one requester, judged by the responder's own code.
//!
//! Read first: `IsAnswerer` in `specs/JudgedResponder.antt`, what is kept of the responder. The call to begin with is
//! `JudgedResponder::judges`.
#![tactic(auto)]

mod answer_keys;
mod answer_length;
mod answer_reasons;
mod apart;
mod body_judged;
mod choosing;
mod clear_answers;
mod clear_judged;
mod clear_values;
mod given;
mod judged_in_clear;
mod judged_responder;
mod large_told;
mod opening;
mod prepared_request;
mod record_answers;
mod record_closed;
mod record_judged;
mod record_values;
mod request_source;
mod response_values;
mod sealed_answers;
mod shown_changes;
mod shown_fields;
mod shown_values;
mod whole_answers;

pub use answer_keys::AnswerKeys;
pub use answer_reasons::reason_for;
pub use given::{Given, Judged};
pub use judged_responder::JudgedResponder;
pub use opening::Opening;
pub use prepared_request::PreparedRequest;
