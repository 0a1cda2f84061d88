//! The capture of a script: its configuration, and the packets that its link carries when it runs.
//!
//! Read first: `carried_in` in `specs/Carried.antt`, the packets of a script. The calls are `carried_packets` and
//! `write_capture`.
#![tactic(auto)]

mod carrying;
mod fault;
mod writing;

pub use carrying::carried_packets;
pub use fault::CaptureFault;
pub use writing::write_capture;
