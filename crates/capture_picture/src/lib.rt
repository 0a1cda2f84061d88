//! Pictures of packets: an arrow for each, between the ends that it names.
//!
//! Read first: `arrow_of` in `specs/Arrows.antt`, the arrow of a packet. The call is `draw_packets`.
#![tactic(auto)]

mod arrows;
mod contents;
mod drawing;
mod ends;
mod rows;

pub use arrows::arrow_of;
pub use drawing::draw_packets;
pub use ends::{end_of, requesters_of};
