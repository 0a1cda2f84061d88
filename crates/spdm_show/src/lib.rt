//! The command `show`: messages in hexadecimal, one a line, are shown by their names and lengths, or by their first
//! faults.
//!
//! Read first: `shown_text` in `specs/Shown.antt`, what is written for a text of messages. The call is `show`.
#![tactic(auto)]

mod line;
mod showing;

pub use showing::{ShowFault, show};
