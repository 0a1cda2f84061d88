//! Attestation over every schedule: what a requester measures in a session is what the responder is set up with, and so
//! is what an attestor appraises, also where ends start again. No code runs here: each function has a law as its contract.
//!
//! Read first: `MeasuresAsConfigured` in `specs/Measured.antt`, what is said of the history of a requester. The law to
//! read first is `measured_as_configured`; `attested_as_configured` is about attestors.
#![tactic(auto)]

mod laws;

pub use laws::{
    attested_as_configured, attested_in_lives, measured_as_configured, measured_in_lives,
};
