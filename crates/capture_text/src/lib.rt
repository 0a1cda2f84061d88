//! Captures as texts: the lines of packets behind a configuration.
//!
//! Read first: `packet_lines` in `specs/Written.antt`, the lines of packets. The call is `write_packet_lines`.
#![tactic(auto)]

mod laws;
mod writing;

pub use laws::{captured_packets_fit, written_capture_is_read};
pub use writing::{WriteError, write_packet_lines};
