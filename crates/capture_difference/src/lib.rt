//! The first packet of a capture that does not conform, behind its packets in words or as JSON: which it is, why, what was
//! awaited there, and a byte of it, or of a packet before it, with whose change the packets conform, where one is enough.
//!
//! Read first: `IsJudged` in `specs/Difference.antt`, what is told of a capture, and `IsWritten` in `specs/Written.antt`.
//! The calls are `judge` and `write_judged`.
#![tactic(auto)]

mod changes;
mod difference;
mod judging;
mod laws;
mod reading;
mod seeking;
mod spots;
mod texts;
mod writing;

pub use changes::Change;
pub use difference::{Difference, WrongByte};
pub use judging::judge;
pub use laws::one_difference;
pub use spots::Spot;
pub use writing::write_judged;
