//! Files of MCTP packets in the pcap format, as other tools read and write them: what they hold, and what is written.
//!
//! Read first: `packets_in` in `specs/Reading.antt`, the packets of a file or its first fault. The calls are
//! `write_packets` and `read_packets`.
#![tactic(auto)]

mod fault;
mod laws;
mod order;
mod reading;
mod writing;

pub use fault::{PcapFault, ReadError};
pub use laws::written_file_is_read;
pub use order::ByteOrder;
pub use reading::read_packets;
pub use writing::write_packets;
