//! What the two ends of a connection said, as both of them hash it (DSP0274, "Transcript hash"): the messages of the
//! negotiation kept whole, and running hashes over what follows. Nothing here takes memory.
//!
//! Read first: `vca_of` in `specs/Transcripts.antt`, the messages of a negotiation, as they are hashed. Calls are
//! `Lane::push` and `Lane::finish`.
#![tactic(auto)]

mod lane;
mod vca;

pub use lane::Lane;
pub use vca::Vca;
