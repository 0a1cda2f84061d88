//! Both ends as C holds them: handles on boxed ends, the numbers that C is told in place of enums, and the calls.
//!
//! Read first: `HoldsResponder` in `specs/Holding.antt`, and the tables in `specs/Codes.antt` and `specs/Telling.antt`.
//! The exports are those of the static library `mekurdai`, which states the clauses of these methods again;
//! `include/spdm.h` is their header.
#![tactic(auto)]

mod argument;
pub mod codes;
mod command;
mod config;
mod giving_back;
mod kept_requester;
mod kept_responder;
mod message;
mod open_requester;
mod open_responder;
mod packet_outcome;
pub mod parts;
mod requester_calls;
mod requester_handle;
pub mod requester_set_up;
mod requester_told;
mod requester_views;
mod responder_calls;
mod responder_changes;
mod responder_handle;
mod responder_peeking;
mod responder_resetting;
mod responder_set_up;
mod responder_views;
mod session;
mod sizes;
mod watch;
pub mod writing;

pub use config::{Block, KnownRequester, Offer, RequesterConfig, ResponderConfig};
pub use message::Message;
pub use packet_outcome::PacketOutcome;
pub use requester_handle::RequesterHandle;
pub use responder_handle::ResponderHandle;
pub use session::Session;
pub use sizes::{requester_size, responder_size};
pub use watch::{Change, Changes, Watch, Watched};
