//! Honest delivery completes what a requester is told to do. No code runs here: the definitions are in `specs/`, and
//! each function below has a law about them as its contract.
//!
//! Read first: `OpenCompletes` in `specs/Opening.antt`, what `open` comes to where all is delivered. The law to read
//! first is `open_completes`.
#![tactic(auto)]

mod laws;

pub use laws::{
    answers_are_queued, answers_wait_first, connect_completes, connected_can_measure,
    connects_quietly, each_is_connected, ended_at_both_ends, honest_scripts_complete,
    measure_completes, open_completes, pumped_scripts_are_honest, pumps_are_enough,
    quiet_commands_complete, quiet_measures_complete, quiet_worlds_complete,
    session_commands_complete, six_packets_are_enough,
};
