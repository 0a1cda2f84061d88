//! The packets of a capture in words and as JSON: a block of lines, or an object, for each, with its header, the body that
//! it completes, of a record the inner message, and the large message that is whole with its chunk; of messages with their
//! fields.
//!
//! Read first: `block_of` in `specs/Blocks.antt`, the block of a packet. The call is `write_packets`.
#![tactic(auto)]

mod blocks;
mod bodies;
mod chunks;
mod following;
mod heads;
mod json_blocks;
mod json_bodies;
mod json_chunks;
mod json_heads;
mod json_records;
mod names;
mod readings;
mod records;
mod shown;
mod style;
mod writing;

pub use readings::{Lengths, request_hash, response_lengths};
pub use shown::Shown;
pub use style::Style;
pub use writing::{PacketsFault, write_packets};
