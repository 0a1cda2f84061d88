//! The configuration at the front of a text.

pub mod block_line;
pub mod config;
pub mod config_kind;
pub mod config_text;
pub mod end_line;
pub mod end_numbers;
pub mod opaque_line;
pub mod partial_config;
pub mod requester_line;
pub mod responder_line;
pub mod seed_line;
pub mod suite_line;
