//! Bytes, streams, packets and frames: borders, faults in mid-stream, and bodies of many packets. There is nothing
//! here but tests.
//!
//! Read first: `body_of_three_packets` in `src/packet_tests.rt`.
#![tactic(auto)]

#[cfg(test)]
mod bytes_tests;
#[cfg(test)]
mod frame_tests;
#[cfg(test)]
mod packet_tests;
#[cfg(test)]
mod standard_tests;
