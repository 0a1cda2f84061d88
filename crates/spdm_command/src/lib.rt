//! The command `spdm` over any source, sink, seeds and keeper: it runs requesters and a responder over a scripted link
//! and writes their trace, restarts them, serves and drives streams, attests a responder, and checks captures.
//!
//! Read first: `answer_to` in `specs/Answer.antt`, what the command answers. The call is `spdm`.
#![tactic(auto)]

mod checks;
mod generated;
mod outcome;
mod output;
mod reading;
mod run;
mod scripts;
mod streams;
mod words;

pub use outcome::Outcome;
pub use run::spdm;
pub use streams::{outcome_of_kept, outcome_of_verdict};
