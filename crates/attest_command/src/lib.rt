//! The command `attest`: a configuration and a policy, and a stream of frames after them, on which a requester appraises its
//! responder's measurements.
//!
//! Read first: `HasVerdict` in `specs/Outcome.antt`, what `attest` comes to. The calls are `attest_input`, and
//! `attest_kept_input` for a requester of which the boots are counted.
#![tactic(auto)]

mod attesting;
mod attesting_kept;
mod begin;
mod line_count;
mod parsing;
mod texts;

pub use attesting::attest_input;
pub use attesting_kept::attest_kept_input;
