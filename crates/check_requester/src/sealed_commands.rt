ghost use Rattle.std.specs.Prelude.{◌≡◌, ◌≤◌, ◌<◌, ◌-◌, ◌^◌, None, true, length};
ghost use Rattle.requester_core.specs.Joined.{StandsFor, command_of};
ghost use Rattle.requester_core.specs.OwnRecords.{OpensAs};
ghost use Rattle.requester_machine.specs.History.{History, asks_session, outstanding};
ghost use Rattle.requester_machine.specs.Named.{session_named};
ghost use Rattle.requester_machine.specs.Setup.{ReqSetup};
ghost use Rattle.spdm_machine.specs.Bodies.{record_body};
ghost use Rattle.check_requester.specs.JudgedRequester.{IsKeptSetup};
ghost use Rattle.check_requester.specs.Commanded.{IsSentByCommand};
ghost use Rattle.check_requester.specs.SealedTold.{IsSentBy, TellsCommand, command_told, request_told};
ghost use Rattle.secured_record.specs.declared.TheConstants.{MAX_RECORD_SIZE};

use crate::judged_setup::JudgedSetup;
use crate::owed_messages::LONG_CONTEXT;
use check_laws::{byte_at, rest_of};
use psk_session::InnerPair;
use requester_core::{Body, Command, FreeValues, RequesterCore};
use spdm_basis::RecordFrame;
use spdm_grammar::names::message_type::SPDM;
use spdm_grammar::names::request_code::{END_SESSION, GET_MEASUREMENTS, HEARTBEAT, KEY_UPDATE};

// The types of an inner message: application data, and an SPDM message (DSP0277).
const DATA: u8 = 1;

// The operation of KEY_UPDATE that updates all keys.
const UPDATE_ALL_KEYS: u8 = 2;

// A ReqSessionID as the commands name it.
fn session_number(id: u16) -> u8
    ensures { id < 256 → result ≡ id }
{
    (id % 256) as u8
}

// The command of a session that asks a request with this code, these two bytes after it.
fn request_in(session: u8, code: u8, first: u8, second: u8) -> Option<Command<'static>>
    ensures { TellsCommand result (request_told session code first second) }
{
    match code {
        HEARTBEAT => Some(Command::Beat { session }),
        KEY_UPDATE => Some(Command::Update {
            session,
            all: first == UPDATE_ALL_KEYS,
        }),
        GET_MEASUREMENTS => Some(Command::Measure {
            session: Some(session),
            op: second,
        }),
        END_SESSION => Some(Command::End { session }),
        _ => None,
    }
}

// The command of a session by which an inner message is sent, if one is.
fn command_in(session: u8, inner: &[u8]) -> Option<Command<'_>>
    ensures { TellsCommand result (command_told session inner.now) }
{
    if byte_at(inner, 0) == DATA {
        return Some(Command::Send {
            session,
            bytes: rest_of(inner),
        });
    }
    if byte_at(inner, 0) == SPDM {
        return request_in(
            session,
            byte_at(inner, 2),
            byte_at(inner, 3),
            byte_at(inner, 4),
        );
    }
    None
}

// Whether a command of a session sends this record, with some padding of at most 16 bytes.
fn seals(
    asking: &mut RequesterCore,
    setup: &JudgedSetup,
    room: &mut Body,
    pair: &mut InnerPair,
    command: Command<'_>,
    sealed: &[u8],
) -> bool
    ensures { (q : ReqSetup) (h : History) → IsKeptSetup setup.now q → length h < 2 ^ 64 - 1
        → length sealed.now ≤ MAX_RECORD_SIZE → StandsFor asking.old q h
        → asks_session (command_of command.entry) ≡ true → IsSentBy q h
        (command_of command.entry) (record_body sealed.now) result asking.new }
{
    let free = FreeValues {
        id: asking.free_id(),
        context: &LONG_CONTEXT,
        opaque: &[],
    };
    if asking
        .command(&setup.setup(), &setup.psk, command, &free, &[], room)
        .is_err()
    {
        return false;
    }
    asking.take_padded(sealed, pair)
}

// Whether some command sends this record, where nothing is outstanding: it opened to this inner message.
pub(crate) fn sends_opened(
    asking: &mut RequesterCore,
    setup: &JudgedSetup,
    room: &mut Body,
    inner: &RecordFrame,
    pair: &mut InnerPair,
    sealed: &[u8],
) -> bool
    ensures { (q : ReqSetup) (h : History) → IsKeptSetup setup.now q → length h < 2 ^ 64 - 1
        → length sealed.now ≤ MAX_RECORD_SIZE → outstanding h ≡ None → StandsFor asking.old q h
        → OpensAs q.psk (session_named h sealed.now) sealed.now true inner.now
        → IsSentByCommand q h (record_body sealed.now) result asking.new }
{
    let named = asking.named(sealed);
    let session = session_number(named.unwrap_or(0));
    match command_in(session, inner.as_slice()) {
        Some(command) => seals(asking, setup, room, pair, command, sealed),
        None => false,
    }
}

// Whether some command sends this record, where nothing is outstanding: the inner message is opened into `inner`.
pub(crate) fn sends_sealed(
    asking: &mut RequesterCore,
    setup: &JudgedSetup,
    room: &mut Body,
    inner: &mut RecordFrame,
    pair: &mut InnerPair,
    sealed: &[u8],
) -> bool
    ensures { (q : ReqSetup) (h : History) → IsKeptSetup setup.now q → length h < 2 ^ 64 - 1
        → length sealed.now ≤ MAX_RECORD_SIZE → outstanding h ≡ None → StandsFor asking.old q h
        → IsSentByCommand q h (record_body sealed.now) result asking.new }
{
    if !asking.open_next(sealed, inner) {
        return false;
    }
    sends_opened(asking, setup, room, inner, pair, sealed)
}
