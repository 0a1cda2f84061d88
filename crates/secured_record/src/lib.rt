//! Secured records (DSP0277): sealing an inner message under the key of a direction, and opening what was sealed. No
//! call allocates.
//!
//! Read first: `record_of` in `specs/Format.antt`, the record of an inner message. Calls are `RecordKey::seal` and
//! `RecordKey::open`.
#![tactic(auto)]

mod cipher;
mod format;
mod opening;
mod record_key;
mod sealing;

pub use opening::open;
pub use record_key::RecordKey;
pub use sealing::{TooLong, seal};
pub use spdm_basis::RecordFault;

/// The least length of a record, in bytes: one with neither an inner message nor padding (DSP0277, "Secured Message
/// format").
pub const MIN_RECORD_SIZE: usize = 26;

/// The greatest length of a record, in bytes. This project's own limit.
pub const MAX_RECORD_SIZE: usize = 4160;
