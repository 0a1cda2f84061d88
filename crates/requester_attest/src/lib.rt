//! A requester that appraises its responder's measurements, on a stream of frames.
//!
//! Read first: `IsAttested` in `specs/Attested.antt`, what is written for a stream of frames. The call is `attest`.
#![tactic(auto)]

mod attending;
mod attesting;
mod making;
mod words;
mod writing;

pub use attesting::attest;
pub use requester_drive::DriveFault;
