ghost use Rattle.std.specs.Prelude.{◌≡◌};
ghost use Rattle.c_ends.specs.Setting.{as_told, command_in};

use requester::Command;

/// The command of a number, if there is one. `session` is its ReqSessionID, of which 0 asks for measurements in the
/// clear. `number` is the kind of summary of a session that is opened, the operation of a measurement, and of a key
/// update 0 where the request key alone is updated.
pub fn command_of(command: u32, session: u8, number: u8, bytes: &[u8]) -> Option<Command<'_>>
    ensures { as_told result ≡ command_in command session number bytes.now }
{
    match command {
        1 => Some(Command::Connect),
        2 => Some(Command::Open { summary: number }),
        3 => Some(Command::Send { session, bytes }),
        4 => Some(Command::Beat { session }),
        5 => Some(Command::Update {
            session,
            all: number != 0,
        }),
        6 => Some(Command::Measure {
            session: if session == 0 { None } else { Some(session) },
            op: number,
        }),
        7 => Some(Command::End { session }),
        8 => Some(Command::Retry),
        _ => None,
    }
}
