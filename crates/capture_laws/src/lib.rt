//! Laws of captures on which no judge stands. No code runs here: each function has a law as its contract.
//!
//! Read first: `NoneBeginsAfterWarning` in `specs/Warned.antt`, that no large response which passed unseen is fetched
//! after DecryptError to a record for whose answer the requester waits.
#![tactic(auto)]

mod laws;

pub use laws::none_begins_after_warning;
