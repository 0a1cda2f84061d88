ghost use Rattle.std.specs.Prelude.{◌≡◌};
ghost use Rattle.requester_drive.specs.Commands.{as_told, command_told};
ghost use Rattle.script_text.specs.Saying.{event_in};

use requester::Command;
use script_text::{CommandLine, ParsedCommand};

/// The command that a line tells requester 1, if it tells it one. The bytes of the line are the first in the room.
pub(crate) fn command_of<'a>(line: &CommandLine, room: &'a [u8]) -> Option<Command<'a>>
    ensures { as_told result ≡ command_told (event_in line.now room.now) }
{
    if line.q != 1 {
        return None;
    }
    Some(match line.said {
        ParsedCommand::Connect => Command::Connect,
        ParsedCommand::Retry => Command::Retry,
        ParsedCommand::Open { summary } => Command::Open { summary },
        ParsedCommand::Send { session } => Command::Send {
            session,
            bytes: &room[..line.count.min(room.len())],
        },
        ParsedCommand::Beat { session } => Command::Beat { session },
        ParsedCommand::End { session } => Command::End { session },
        ParsedCommand::Update { session, all } => Command::Update { session, all },
        ParsedCommand::Measure { session, op } => Command::Measure { session, op },
    })
}
