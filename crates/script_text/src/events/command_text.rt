ghost use Rattle.std.specs.Prelude.{◌≡◌, ◌≤◌, length};
ghost use Rattle.script_text.specs.CommandText.{command_in, command_of_kind};
ghost use Rattle.script_text.specs.HexWords.{most_bytes};
ghost use Rattle.script_text.specs.Reading.{IsReading};
ghost use Rattle.script_text.specs.Saying.{IsSaying};
ghost use Rattle.script_text.specs.declared.events.event_kind.EventKind.{EventKind};

use crate::configuration::config::ScriptConfig;
use crate::events::command::command;
use crate::events::event::LinkEvent;
use crate::events::event_kind::{EventKind, event_kind};
use crate::events::parsed_command::{ParsedCommand, what_is_said};
use crate::reading::hex_words::bytes_into;
use crate::reading::lines::is_too_long;
use crate::reading::words::word;
use crate::texts::faults::{LineError, LineFault, ScriptFault};
use std::alloc::Global;

/// The command that a line is, for a requester of this configuration. The fault is the first that the line has, and is
/// told of line 1; a line that is no command is unknown.
#[tactic(auto, unfolding(crate::specs::CommandText::command_in))]
pub fn parse_command(
    alloc: Global,
    config: &ScriptConfig,
    line: &[u8],
) -> Result<LinkEvent, ScriptFault>
    ensures { IsReading (command_in (length config.now.requesters) line.now) result }
{
    if is_too_long(line) {
        return Err(ScriptFault::Line(1, LineFault::LineTooLong));
    }
    let requesters = config.requesters.as_slice().len();
    command_of_kind(alloc, requesters, event_kind(line), line)
}

// The command of a line of this kind.
fn command_of_kind(
    alloc: Global,
    requesters: usize,
    kind: Option<EventKind>,
    line: &[u8],
) -> Result<LinkEvent, ScriptFault>
    ensures { IsReading (command_of_kind requesters kind line.now) result }
{
    let Some(EventKind::Command(q, kind)) = kind else {
        return Err(ScriptFault::Line(1, LineFault::Unknown));
    };
    match command(alloc, requesters, q, kind, line) {
        Ok(event) => Ok(event),
        Err(LineError::Fault(fault)) => Err(ScriptFault::Line(1, fault)),
        Err(LineError::NoMemory) => Err(ScriptFault::OutOfMemory),
    }
}

/// A command of one line: its requester, what it asks, and how many bytes it has.
#[derive(Clone, Copy, Debug, PartialEq, Eq)]
pub struct CommandLine {
    pub q: u8,
    pub said: ParsedCommand,
    pub count: usize,
}

/// The command that a line is, as `parse_command` reads it, without memory of its own: its bytes, at most `MOST_BYTES`,
/// are the first of `room` after the call. The fault is the first that the line has.
#[tactic(auto, unfolding(crate::specs::CommandText::command_in))]
pub fn read_command(
    config: &ScriptConfig,
    line: &[u8],
    room: &mut [u8],
) -> Result<CommandLine, LineFault>
    requires { most_bytes ≤ length room.old }
    ensures { IsSaying (command_in (length config.now.requesters) line.now) room.new result }
{
    if is_too_long(line) {
        return Err(LineFault::LineTooLong);
    }
    let Some(EventKind::Command(q, kind)) = event_kind(line) else {
        return Err(LineFault::Unknown);
    };
    let said = match what_is_said(config.requesters.as_slice().len(), q, kind, line) {
        Ok(said) => said,
        Err(fault) => return Err(fault),
    };
    let count = match said {
        ParsedCommand::Send { .. } => bytes_into(word(3, line), room),
        _ => 0,
    };
    Ok(CommandLine { q, said, count })
}
