//! A responder's side of the connection with one requester (DSP0274, section 10), with every free value handed in: the
//! clear part, which holds the state of the negotiation and its results; the sessions; and the queue of application
//! data to send in reply.
//!
//! Read first: `StandsFor` in `specs/Connected.antt`, which history a connection stands for. Calls are
//! `Connection::on_clear` and `Connection::on_record`; `Connection::on_record_chosen` is the latter with the values that
//! this project's responder chooses.
#![tactic(auto)]

mod blocks;
mod clear;
mod connected;
mod free_values;
mod in_sessions;
mod judging;
mod laws;
mod new_data;
mod reply_queue;
mod setup;
mod silence;
mod views;
mod wiping;

pub use blocks::connection_blocks;
pub use clear::clear_outcome::ClearOutcome;
pub use clear::clear_part::ClearPart;
pub use clear::clear_place::ClearPlace;
pub use clear::clear_state::ClearState;
pub use clear::handled_request::HandledRequest;
pub use clear::kept::KeptReply;
pub use clear::negotiating::Negotiating;
pub use clear::refused::Refused;
pub use clear::request_outcome::{ExchangeOrigin, RequestOutcome};
pub use clear::requests::Requests;
pub use connected::Connection;
pub use free_values::FreeValues;
pub use in_sessions::ended::EndedRecord;
pub use in_sessions::ended_place::EndedPlace;
pub use in_sessions::live_session::LiveSession;
pub use in_sessions::records::record_id;
pub use in_sessions::session_slot::SessionSlot;
pub use in_sessions::sessions::Sessions;
pub use judging::dry_run::DryRun;
pub use laws::others_keep_the_clear_part;
pub use reply_queue::ReplyQueue;
pub use setup::Setup;
pub use silence::Silence;
