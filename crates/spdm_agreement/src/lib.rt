//! Agreement of the two ends of a pre-shared key, over every schedule. No code runs here: the definitions are in
//! `specs/`, and each function below has a law about them as its contract.
//!
//! `agreement`, `data_prefix`, `matched` and `sealed_once` are laws of worlds: a responder with its requesters and the
//! packets between them, after any events, where no two tags agree by chance. They speak of the definitions of the ends
//! alone. The others are laws of the machine of moves by which they are proved: what the ends do is counted out of
//! their histories as marks, and each step of theirs is made of a few moves with guards. Those hold for any functions
//! that seal records, make tags and read numbers off transcripts.
//!
//! Read first: `InEachWorld` in `specs/Worlds.antt`, what is said of each world, `Agreement` of `world_machine` first.
//! The law to read first is `agreement`.
#![tactic(auto)]

mod laws;

pub use laws::{
    agreement, data_prefix, delivered, fresh_sessions, hashes_agree, matched, matched_sessions,
    one_record, one_transcript, scripts_are_configured, scripts_hold, sealed_once,
};
