//! A session under a pre-shared key at the responder (DSP0274, "Session"; DSP0277). `RspSession` is updated in place;
//! over it stand typestates that calls consume and return, where what a state does not allow is not a method of it. No
//! call allocates.
//!
//! Read first: `StandsFor` in `specs/Session.antt`, which events a session stands for. The call to begin with is
//! `RspHandshake::start`.
#![tactic(auto)]

mod answer_key;
mod answers;
mod applying;
mod ended;
mod exchange;
mod handshake;
mod judging;
mod kept;
mod last;
mod last_read;
mod laws;
mod new_data;
mod number;
mod open;
mod own_answers;
mod parts;
mod pending;
mod queue;
mod request_effect;
mod requests;
mod session;
mod told;
mod took;
mod verifying;
mod wiping;
mod work;

pub use answer_key::AnswerKey;
pub use ended::RspEnded;
pub use handshake::RspHandshake;
pub use laws::{
    behind_has_reply, session_waits, start_is_answer, told_is_record, took_is_record,
    waiting_stands,
};
pub use open::RspOpen;
pub use parts::ExchangeParts;
pub use queue::{AppQueue, QueueFault};
pub use request_effect::ResponseValues;
pub use session::RspSession;
pub use told::{RspAct, RspTold};
pub use took::{RspState, RspTook};
pub use verifying::RspVerifying;
pub use work::Work;
