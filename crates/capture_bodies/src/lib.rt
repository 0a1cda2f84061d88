//! The bodies of a capture: what each of its packets completes between the responder and a requester, told from all
//! packets before it, and the large messages that its chunks in the clear carry.
//!
//! Read first: `completed` in `specs/Completing.antt`, what a packet completes, and `large` in `specs/Collecting.antt`,
//! what it does to a large message. The call is `Gathering::follow`.
#![tactic(auto)]

mod came;
mod chunks;
mod direction;
mod gathering;

pub use came::{Came, LargePart};
pub use direction::{BodyBuffer, Direction, collect};
pub use gathering::{Gathering, Pair};
