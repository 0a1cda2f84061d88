//! MCTP packets (DSP0236, "MCTP over transport bindings"): parsing, fragmentation of a message body into packets, and
//! assembly of packets into bodies.
//!
//! Read first: `gathered` in `specs/Gathering.antt`, what a packet leads to, told from all packets before it. Calls are
//! `cut` and `Assembler::take`.
#![tactic(auto)]

mod assembler;
mod body_buffer;
mod completing;
mod cutter;
mod laws;
mod packet;
mod packet_list;
mod route;
mod unfinished;

pub use assembler::{Assembler, Fed};
pub use completing::Completing;
pub use cutter::{Cutter, PacketBuf, cut};
pub use laws::{
    cut_is_gathered, first_packet_begins_anew, others_count_in_nothing, packets_fit,
    payloads_are_the_body, short_body_is_one_packet, written_is_read,
};
pub use packet::{Packet, PacketView};
pub use packet_list::PacketList;
pub use route::Route;
pub use spdm_basis::{DropCause, PacketFault};
