//! The command `spdm_device` over any source, sink and seeds: a responder with an application behind it, on the stream behind a
//! configuration.
//!
//! Read first: `IsDevised` in `specs/Devised.antt`, what the stream comes to. The call is `spdm_device`.
#![tactic(auto)]

mod begin;
mod run;
mod stream;

pub use run::spdm_device;
pub use spdm_command::Outcome;
pub use stream::device_input;
