//! Captures, while a large response is fetched: a requester and the responder are judged by their own code, though of
//! the answer no byte is known but those of the chunks that came.
//!
//! Read first: `IsRepliedTo` in `specs/Fetched.antt`, and `StandsFor` in `specs/JudgedEnds.antt`. The calls are those of
//! `JudgedEnds`.
#![tactic(auto)]

mod clear_fetch;
mod ends_laws;
mod fetch;
mod judged_ends;
mod judged_replies;
mod judged_requests;
mod marked;
mod marked_ends;
mod marking;
mod marks_laws;
mod session_fetch;
mod upon;

pub use clear_fetch::held::Held;
pub use clear_fetch::held_begins::{BegunHeld, begins_held};
pub use clear_fetch::held_replies::replies_held;
pub use clear_fetch::late_begins::begins_late;
pub use clear_fetch::shown::Shown;
pub use ends_laws::{awaiting_ends_stay, other_ends_stay};
pub use fetch::Fetch;
pub use judged_ends::JudgedEnds;
pub use marked::MarkedEnds;
pub use marks_laws::{awaiting_marked_stay, other_marked_stay};
pub use session_fetch::again_begins::{BegunAgain, begins_again};
pub use session_fetch::in_session::InSession;
pub use session_fetch::in_session_begins::{BegunIn, begins_in_session};
pub use session_fetch::in_session_replies::replies_in_session;
pub use upon::Upon;
