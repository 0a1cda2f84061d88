//! What a capture shows: the order of its packets, the table of its sessions, and the laws by which what is kept of one
//! requester and the responder tells what goes on from it, and why a packet is refused.
//!
//! Read first: `IsVerdict` in `specs/Verdict.antt`, what the verdict on a capture is. The calls are those of `Round`
//! and `SessionTable`; the law that joins walks to what is kept is `kept_is_restored`. `sending_large` has what a
//! capture shows of a large request, which is sent in chunks: `IsSendingOf` in `specs/Large/Sending.antt`.
#![tactic(auto)]

mod bodies;
mod change;
mod change_laws;
mod laws;
mod places;
mod round;
mod row_laws;
mod rows;
mod sending_large;
mod verdict;

pub use bodies::{byte_at, bytes_from, is_clear, is_get_version, is_secured, rest_of};
pub use change::Change;
pub use change_laws::{
    ack_accepts_none, answer_accepts, answer_asks_none, copy_is_request, large_answer_changes,
    last_chunk_changes, round_is_request, whole_answer_changes,
};
pub use laws::{conforms_is_each, kept_is_restored, one_verdict, sealed_tells};
pub use places::Places;
pub use round::Round;
pub use row_laws::{one_changes_rows, other_places_stay, rows_are_of_all, walks_step};
pub use sending_large::large_request::LargeRequest;
pub use sending_large::laws::{last_is_whole, whole_is_shown};
pub use sending_large::pieces::Piece;
pub use spdm_grammar::Why;
pub use verdict::{Seen, SessionTable, Verdict};
