//! Lives of the ends of a pre-shared key, one after another: what holds where ends start again with the same set-up and
//! later draws. No code runs here: the definitions are in `specs/`, and each function below has a law about them as its
//! contract.
//!
//! Read first: `AreLives` in `specs/Lives.antt`, lives of the same ends, and `HoldOverLives` in `specs/Laws.antt`, what is
//! said of them. The law to read first is `lives_hold`.
#![tactic(auto)]

mod laws;

pub use laws::{
    lives_hold, no_transcript_twice, script_lives_hold, text_lives_hold, text_transcripts_apart,
};
