//! What is left of a connection behind `Responder::reset`. No code runs here: the function below has a law as its contract.
//!
//! Read first: `IsGivenUp` in `specs/GivenUp.antt`, what is said of the connection. The law is `reset_gives_up`.
#![tactic(auto)]

mod laws;

pub use laws::reset_gives_up;
