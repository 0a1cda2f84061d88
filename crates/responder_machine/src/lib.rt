//! The responder of SPDM 1.2 sessions under pre-shared keys as definitions over whole histories: what it refuses, what
//! it answers, and what is counted of its sessions. No code runs here. The definitions are in `specs/`, and each
//! function below has a law about them as its contract.
//!
//! Read first: `responder_hears` in `specs/Responding.antt`, what a responder does with a packet.
//! The law to read first is `does_what_it_may`.
#![tactic(auto)]

mod bounds;
mod end_laws;
mod laws;
mod new_data_laws;
mod refusals;

pub use bounds::{common_is_negotiated, counts_are_bounded, queue_is_bounded, sizes_are_set_up};
pub use end_laws::{
    connections_are_independent, given_stands_alike, others_stand, own_decide, runs_are_bounded,
};
pub use laws::{
    algorithms_settle_choice, capabilities_settle_common, chosen_is_allowed, does_what_it_may,
    finish_begins_at_zero, finish_is_verified, four_are_held_at_most, free_id_is_free,
    held_are_few, live_id_is_from_one_to_four, live_is_under_negotiation, made_is_staged,
    new_session_is_fresh, next_numbers_are_counts, numbers_are_few, one_is_in_handshake,
    record_keeps_others, refused_clear_keeps_connection, refused_clear_keeps_sessions,
    refused_in_chunks_keeps_sessions, refused_record_keeps_sessions, repeat_adds_nothing,
    repeated_record_adds_nothing, reply_number_is_count, request_has_its_code, sizes_are_known,
    taken_exchange_is_fresh, taken_is_repeated, taken_record_is_opened, taken_record_is_repeated,
    unopened_adds_nothing, update_all_is_answered_at_zero, update_begins_at_zero,
};
pub use new_data_laws::{
    brought_is_answered, brought_is_taken, queued_brings_alike, queued_is_sent,
};
pub use refusals::{refused_in_chunks_keeps_connection, refused_record_keeps_connection};
