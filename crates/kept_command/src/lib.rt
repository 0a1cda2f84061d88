//! The command `spdm_kept` over any source, sink, seeds and keeper: a requester that is driven by a stream, or that measures
//! its responder, in the life of the next boot that the keeper counts.
//!
//! Read first: `IsDrivenKept` in `specs/Answers.antt`, what `drive` comes to, with `IsAttestedKept` for `attest`. The call is
//! `spdm_kept`.
#![tactic(auto)]

mod run;
mod words;

pub use run::spdm_kept;
pub use spdm_command::Outcome;
