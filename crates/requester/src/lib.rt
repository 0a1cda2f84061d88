//! A requester of SPDM 1.2 sessions under a pre-shared key (DSP0274, section 10): commands and packets in, packets out.
//!
//! Read first: `StandsFor` in `specs/Standing.antt`, which relates a `Requester` to its state in the definitions. Calls
//! are `Requester::command` and `Requester::on_packet`.
#![tactic(auto)]

mod busy;
mod config;
mod fault;
mod hearing;
mod part;
mod sending;
mod telling;
mod whole;
mod wiping;

pub use config::ReqConfig;
pub use fault::ReqConfigFault;
pub use requester_core::{Command, SessionTold};
pub use spdm_grammar::{CommandFault, Event, Finished, FlagSet, ReqIgnored, Stop};
pub use whole::Requester;
