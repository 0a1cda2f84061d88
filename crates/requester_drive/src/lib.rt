//! A requester driven by a stream of frames.
//!
//! Read first: `IsDriven` in `specs/Driven.antt`, what is written for a stream of frames. The call is `drive`.
#![tactic(auto)]

mod commands;
mod driving;
mod fault;
mod lines;
mod making;
mod telling;

pub use driving::drive;
pub use fault::DriveFault;
