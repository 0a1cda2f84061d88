//! Whole texts: scripts, captures, lives, policies and lists of messages.

pub mod capture_text;
pub mod faults;
pub mod lives_text;
pub mod policy_text;
pub mod reader;
pub mod rule;
pub mod script;
pub mod script_lines;
pub mod shown;
pub mod shown_text;
