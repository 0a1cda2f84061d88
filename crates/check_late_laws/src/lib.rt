//! What a capture shows of a large response, one that is fetched in chunks: what is kept of the two ends from its
//! LargeResponse to its last chunk, what goes on from that, and why a packet is refused meanwhile; and the bytes as
//! they come.
//!
//! Read first: `IsFetchingOf` in `specs/Fetching.antt`, of which walks that is kept. The call is `LargeAnswer::take`;
//! the other functions have a law as their contract. `late_fetch` has what holds where the fetch begins late:
//! `StandsBack` in `specs/Late/Passed.antt`, and its call, `Marks`.
#![tactic(auto)]

mod large_answer;
mod late_fetch;
mod laws;
mod messages;

pub use large_answer::LargeAnswer;
pub use late_fetch::laws::late_completes;
pub use late_fetch::marks::Marks;
pub use laws::{chunk_is_shown, fetching_shows, last_is_whole};
