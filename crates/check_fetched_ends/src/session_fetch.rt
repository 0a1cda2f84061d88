//! A large response that is fetched in a session.

pub mod again_begins;
pub mod chunk_judged;
pub mod in_session;
pub mod in_session_begins;
pub mod in_session_replies;
pub mod session_again;
pub mod session_others;
pub mod session_prepared;
pub mod session_texts;
pub mod session_version;
pub mod whole_measured;
