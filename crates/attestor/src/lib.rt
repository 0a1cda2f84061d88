//! A requester that asks its responder for all measurements in a session, and appraises what comes.
//!
//! Read first: `attesting_given` in `specs/Attesting.antt`, what a packet leads to. Calls are `Attestor::start`,
//! `Attestor::on_packet` and `Attestor::on_time`.
#![tactic(auto)]

mod attestor;
mod making;
mod progressed;
mod telling;
mod wiping;

pub use attestor::Attestor;
pub use progressed::Progressed;
