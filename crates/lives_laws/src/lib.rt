//! What holds of the lives of every text, where all ends start again at each `cycle`. No code runs here: the definitions
//! are in `specs/`, and each function below has a law about them as its contract.
//!
//! Read first: `LivesHoldIn` in `specs/TextLives.antt`. The law to read first is `lives_hold`.
#![tactic(auto)]

mod laws;

pub use laws::{lives_are_apart, lives_hold, newest_life_is_run};
