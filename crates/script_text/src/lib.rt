//! Every text that the program reads: scripts, captures, configurations, lives, commands and policies; and scripts that
//! are generated, or written as a text.
//!
//! Read first: `script_in` in `specs/ScriptText.antt`, the script that a text stands for, or its first bad line. The
//! call is `parse_script`.
#![tactic(auto)]

mod configuration;
mod events;
mod generator;
mod laws;
mod printing;
mod reading;
mod texts;

pub use configuration::config::{Blocks, ReqPart, ReqParts, RspPart, ScriptConfig};
pub use configuration::config_text::{TEXT_LIMIT, parse_config};
pub use events::command_text::{CommandLine, parse_command, read_command};
pub use events::event::{Entry, Events, LinkEvent};
pub use events::parsed_command::ParsedCommand;
pub use generator::{MOST_GENERATED, generate};
pub use laws::{printed_events_are_read, printed_script_is_read};
pub use printing::config_printing::print_config;
pub use printing::script_printing::print_script;
pub use reading::hex_words::MOST_BYTES;
pub use reading::numbers::{long_number, number};
pub use texts::capture_text::parse_capture;
pub use texts::faults::{LineFault, ScriptFault};
pub use texts::lives_text::parse_lives;
pub use texts::policy_text::parse_policy;
pub use texts::rule::{Rule, Rules};
pub use texts::script::{Capture, Life, LifeList, Lives, Packets, Script};
pub use texts::script_lines::parse_script;
pub use texts::shown::{Shown, ShownAs, ShownKind, ShownList};
pub use texts::shown_text::parse_shown;
pub use trace_text::{
    add_hex, add_number, add_requester, add_word, end_text_line, line_at, line_command,
    line_conforms, line_cycle, line_data, line_differs, line_event, line_heard, line_malformed,
    line_no_packet, line_nobody, line_packet, line_record, line_reply, line_request, line_response,
    line_seen, line_session, line_state, line_summary,
};
