ghost use Rattle.std.specs.Prelude.{◌≡◌, IfOk};
ghost use Rattle.script_text.specs.Commands.{command_kind, command_fault, command_of};
ghost use Rattle.script_text.specs.Tests.{IsAnswerTo};

use crate::events::event::LinkEvent;
use crate::events::parsed_command::{ParsedCommand, what_is_said};
use crate::reading::hex_words::bytes_of;
use crate::reading::words::word;
use crate::texts::faults::LineError;
use std::alloc::Global;

/// The kinds of commands.
#[derive(Clone, Copy, Debug, PartialEq, Eq)]
pub enum CommandKind {
    Connect,
    Retry,
    Open,
    Send,
    Beat,
    End,
    Update,
    Measure,
}

/// The kind of a command by the word after the requester.
#[tactic(auto, unfolding(crate::specs::Commands::command_kind))]
pub fn command_kind(word: &[u8]) -> Option<CommandKind>
    ensures { result ≡ command_kind word.now }
{
    if word == b"connect".as_slice() {
        Some(CommandKind::Connect)
    } else if word == b"retry".as_slice() {
        Some(CommandKind::Retry)
    } else if word == b"open".as_slice() {
        Some(CommandKind::Open)
    } else if word == b"send".as_slice() {
        Some(CommandKind::Send)
    } else if word == b"beat".as_slice() {
        Some(CommandKind::Beat)
    } else if word == b"end".as_slice() {
        Some(CommandKind::End)
    } else if word == b"update".as_slice() {
        Some(CommandKind::Update)
    } else if word == b"measure".as_slice() {
        Some(CommandKind::Measure)
    } else {
        None
    }
}

/// The command of a line of this kind, for requester `q` where `requesters` are configured.
pub fn command(
    alloc: Global,
    requesters: usize,
    q: u8,
    kind: CommandKind,
    line: &[u8],
) -> Result<LinkEvent, LineError>
    ensures answer { IsAnswerTo (command_fault requesters q kind line.now) result }
    ensures value { IfOk result (λ event. event ≡ command_of q kind line.now) }
{
    match what_is_said(requesters, q, kind, line) {
        Ok(ParsedCommand::Connect) => Ok(LinkEvent::Connect { q }),
        Ok(ParsedCommand::Retry) => Ok(LinkEvent::Retry { q }),
        Ok(ParsedCommand::Open { summary }) => Ok(LinkEvent::Open { q, summary }),
        Ok(ParsedCommand::Send { session }) => {
            let bytes = bytes_of(alloc, word(3, line))?;
            Ok(LinkEvent::Send { q, session, bytes })
        }
        Ok(ParsedCommand::Beat { session }) => Ok(LinkEvent::Beat { q, session }),
        Ok(ParsedCommand::End { session }) => Ok(LinkEvent::End { q, session }),
        Ok(ParsedCommand::Update { session, all }) => Ok(LinkEvent::Update { q, session, all }),
        Ok(ParsedCommand::Measure { session, op }) => Ok(LinkEvent::Measure { q, session, op }),
        Err(fault) => Err(LineError::Fault(fault)),
    }
}
