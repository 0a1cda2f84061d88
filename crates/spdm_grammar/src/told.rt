//! What the ends tell: outcomes, events, refused commands, phases and sessions.

pub mod block_spec;
pub mod command_fault;
pub mod event;
pub mod heard;
pub mod phase;
pub mod session_list;
pub mod session_view;
pub mod why;
