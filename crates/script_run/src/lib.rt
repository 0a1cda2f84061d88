//! Runs scripts, and lives in which all ends start again, over a simulated link, and writes their traces.
//!
//! Read first: `written_lives` in `specs/Lives.antt`, what is written of lives. Calls are `run_script` and `run_lives`.
#![tactic(auto)]

mod cycles;
mod events;
mod fault;
mod life;

pub use cycles::run_lives;
pub use events::run_events;
pub use fault::RunFault;
pub use life::{new_world, run_script};
