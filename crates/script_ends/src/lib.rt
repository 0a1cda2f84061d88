//! The ends that a configuration sets up, and what is reported of what a requester is given.
//!
//! Read first: `responder_in` in `specs/Configured.antt`, the responder that a configuration sets up. The call to begin
//! with is `make_responder`.
#![tactic(auto)]

mod requester_end;
mod responder_end;

pub use requester_end::make_requester;
pub use responder_end::make_responder;
