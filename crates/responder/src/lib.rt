//! A responder of SPDM 1.2 sessions under pre-shared keys (DSP0274, section 10): packets in, packets out.
//!
//! Read first: `StandsFor` in `specs/Standing.antt`, which relates a `Responder` to its state in the definitions. The
//! call is `Responder::on_packet`.
#![tactic(auto)]

mod body;
mod change_laws;
mod changes;
mod checks;
mod config;
mod fault;
mod hearing;
mod part;
mod peeking;
mod peer;
mod queueing;
mod resetting;
mod room;
mod serving;
mod session_times;
mod shared;
mod views;
mod whole;
mod wiping;

pub use change_laws::changes_are_caused;
pub use changes::{SessionChange, SessionMark, SessionWatch, change_between};
pub use config::{Known, RspConfig};
pub use fault::RspConfigFault;
pub use peeking::{PeekRoom, Peeked};
pub use resetting::ResetFault;
pub use responder_core::Silence;
pub use room::responder_blocks;
pub use serving::Responder;
pub use spdm_grammar::{FlagSet, Heard, Phase, ReplyFault, RspIgnored};
