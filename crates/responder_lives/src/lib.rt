//! A responder that starts again beside requesters that go on: what still holds of both. No code runs here: the definitions
//! are in `specs/`, and each function below has a law about them as its contract.
//!
//! Read first: `world_after_lives` in `specs/Restarts.antt`, and `HoldBeside` in `specs/Laws.antt`, what is said of such a
//! world. The law is `responder_lives_hold`.
#![tactic(auto)]

mod laws;

pub use laws::{responder_lives_hold, restarted_apart, script_restarts_hold};
