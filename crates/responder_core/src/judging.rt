//! Used only by the checker: what a responder would answer, and how it stands where an answer was never seen.

pub mod aside;
pub mod completing;
pub mod dry_run;
pub mod forgetting;
pub mod last_read;
pub mod late_fetch;
pub mod own_answers;
pub mod pending;
pub mod seen_terms;
pub mod timed;
pub mod trying;
pub mod unseen_requests;
