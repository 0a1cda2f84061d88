//! A session under a pre-shared key at the requester (DSP0274, "Session"; DSP0277), as typestates that calls consume
//! and return: what a state does not allow is not a method of it. After the handshake a session can also be updated in
//! place, so that nothing large moves. No call allocates.
//!
//! Read first: `Course` in `specs/Course.antt`, what a session did so far. The call to begin with is `Opening::start`.
#![tactic(auto)]

mod answering;
mod answers;
mod ask_fault;
mod closed;
mod finish_answer;
mod finish_record;
mod finish_took;
mod finishing;
mod inner;
mod inner_pair;
mod kept;
mod laws;
mod open_fault;
mod opening;
mod outcome;
mod own_records;
mod reply;
mod req_open;
mod req_session;
mod requests;
mod response_outcome;
mod session_request;
mod session_state;
mod session_told;
mod took;
mod updates;
mod verdict;
mod waiting;
mod wiping;

pub use ask_fault::AskFault;
pub use closed::Closed;
pub use finish_answer::FinishAnswer;
pub use finish_took::FinishTook;
pub use finishing::Finishing;
pub use inner_pair::InnerPair;
pub use laws::{
    ask_is_command, course_is_entry, data_are_last, finish_is_entry, opening_is_answer,
    unopened_is_ignored,
};
pub use open_fault::OpenFault;
pub use opening::Opening;
pub use reply::Reply;
pub use req_open::ReqOpen;
pub use req_session::ReqSession;
pub use response_outcome::ResponseOutcome;
pub use session_keys::SessionTerms;
pub use session_request::SessionRequest;
pub use session_told::SessionTold;
pub use spdm_grammar::{BadReply, SessionView, Stage};
pub use took::Took;
pub use waiting::Waiting;
pub use wiping::wipe_psk;
