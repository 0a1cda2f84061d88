//! Records of a capture, opened under the keys that follow from its pre-shared key and from the messages that its packets
//! show.
//!
//! Read first: `opening_of` in `specs/Opening.antt`, what is told of a record, and `Heard` in `specs/Heard.antt`, what messages
//! show of the sessions. The calls are `Dialogue::hear_request`, `Dialogue::hear_answer` and `Dialogue::open`.
#![tactic(auto)]

mod dialogue;
mod ends;
mod hearing;
mod inner_chunks;
mod inside;
mod keys;
mod opening;
mod session;
mod showing;

pub use dialogue::{Dialogue, MAX_SESSIONS, RecordTold};
pub use ends::{Way, place_of, way_of};
pub use hearing::{Gathered, Hearing};
pub use inner_chunks::InnerChunks;
pub use inside::Inside;
pub use opening::{Opening, RecordKeys};
pub use session::{KeyedSession, RecordCount};
pub use showing::RecordShown;
