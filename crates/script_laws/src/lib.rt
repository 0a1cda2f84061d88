//! What scripts lead to: the world that a script sets up, its events and its trace, and what holds of them. No code
//! runs here: the definitions are in `specs/`, and each function below has a law about them as its contract.
//!
//! Read first: `written_in` in `specs/Scripts.antt`, the trace of a script. The law to read first is `script_agrees`.
#![tactic(auto)]

mod laws;

pub use laws::{
    configured_ends_have_no_fault, ends_have_no_fault, read_script_is_sound, refused_by_table,
    script_agrees, script_completes, script_delivers, script_is_configured, script_matches,
    script_matches_at_packets, script_refuses, script_seals_once, script_shows_alike,
    sound_script_holds, table_refuses,
};
