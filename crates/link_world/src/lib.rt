//! A simulated link between a responder and its requesters: the endpoints, and the packets sent between them.
//!
//! Read first: `StandsFor` in `specs/Worlds.antt`, which relates a `World` of this crate to its state in the
//! definitions. The call is `World::step`.
#![tactic(auto)]

mod ends;
mod event_text;
mod fault;
mod giving;
mod happening;
mod lines;
mod link;
mod making;
mod sending;
mod sent;
mod showing;
mod totals;
mod world;

pub use fault::{StepFault, WorldFault};
pub use sent::{SendFault, SentPackets};
pub use totals::Totals;
pub use world::World;
