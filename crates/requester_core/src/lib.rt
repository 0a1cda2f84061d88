//! A requester (DSP0274, section 10) with every free value handed in: the clear part, which holds how far the
//! negotiation has come, what was settled, and what is outstanding; its sessions by ReqSessionID; and the requester of
//! both.
//!
//! Read first: `StandsFor` in `specs/ClearState.antt`, which history the clear part stands for. The call to begin with is
//! `RequesterCore::command`.
#![tactic(auto)]

mod blocks;
mod body;
mod busy;
mod clear;
mod command;
mod free_values;
mod in_sessions;
mod joined;
mod judging;
mod reacting;
mod reaction;
mod setup;
mod telling;

pub use blocks::core_blocks;
pub use body::Body;
pub use clear::body_outcome::BodyOutcome;
pub use clear::clear_state::ClearState;
pub use clear::negotiating::Negotiating;
pub use clear::outgoing::Outgoing;
pub use clear::outstanding::{Outstanding, PendingRequest, TransferMode};
pub use clear::reply_outcome::ReplyOutcome;
pub use clear::resend::Resend;
pub use command::Command;
pub use free_values::FreeValues;
pub use in_sessions::record_outcome::RecordOutcome;
pub use in_sessions::session_laws::{clear_passes, measure_passes};
pub use in_sessions::sessions::Sessions;
pub use in_sessions::slot::Slot;
pub use in_sessions::slot_place::SlotPlace;
pub use joined::RequesterCore;
pub use psk_session::{SessionTold, wipe_psk};
pub use reaction::Reaction;
pub use setup::Setup;
