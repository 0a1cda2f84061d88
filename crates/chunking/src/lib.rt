//! Large messages as chunks (DSP0274, "CHUNK_SEND" and "CHUNK_GET"): splitting a message into chunks, and reassembling
//! it. No call allocates.
//!
//! Read first: `chunks_of` in `specs/Cutting.antt`, the chunks of a message. Calls are `Splitter::current` and
//! `Collector::take`.
#![tactic(auto)]

mod collector;
mod laws;
mod splitter;
mod unfinished;

pub use collector::{Collected, Collector};
pub use laws::{
    chunk_sizes, chunks_are_the_message, cut_is_collected, few_chunks, first_chunk_begins_anew,
};
pub use spdm_grammar::ChunkFault;
pub use splitter::{SplitFault, Splitter, nth_chunk};
