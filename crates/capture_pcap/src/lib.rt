//! Captures as files in the pcap format, and back.
//!
//! Read first: `pcap_of` in `specs/Files.antt` and `capture_of` in `specs/Captures.antt`, what is written of an input.
//! The calls are `to_pcap` and `from_pcap`.
#![tactic(auto)]

mod into_file;
mod laws;
mod out_of_file;

pub use into_file::{ToPcapFault, to_pcap};
pub use laws::file_is_read_back;
pub use out_of_file::{FromPcapFault, from_pcap};
