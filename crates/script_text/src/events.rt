//! The events of a script and the commands of a requester.

pub mod command;
pub mod command_text;
pub mod event;
pub mod event_kind;
pub mod parsed_command;
