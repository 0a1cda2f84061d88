ghost use Rattle.std.specs.Prelude.{◌≡◌, ◌≤◌, ◌<◌, ◌-◌, ◌^◌, ◌+◌, ℕ, List, [], None, true, false, length};
ghost use Rattle.std.specs.Bool.{Decides};
ghost use Rattle.requester_core.specs.Free.{IsFree};
ghost use Rattle.requester_core.specs.Joined.{StandsFor, command_of};
ghost use Rattle.requester_machine.specs.Commands.{Free, live_count};
ghost use Rattle.requester_machine.specs.History.{History, outstanding};
ghost use Rattle.requester_machine.specs.May.{IsAllowed};
ghost use Rattle.requester_machine.specs.Setup.{ReqSetup};
ghost use Rattle.spdm_grammar.specs.Message.{exchange_message, request_message};
ghost use Rattle.spdm_machine.specs.Bodies.{clear_body};
ghost use Rattle.check_requester.specs.JudgedRequester.{IsKeptSetup};
ghost use Rattle.check_requester.specs.Commanded.{IsOpenedAs, IsSentByCommand, IsSentFor, IsToldAs, IsToldSome, is_in_clear, values_in};
ghost use Rattle.spdm_grammar.specs.declared.names.TheConstants.{MAX_MESSAGE_SIZE, MAX_SESSIONS};

use crate::judged_setup::JudgedSetup;
use crate::owed_messages::{LONG_CONTEXT, is_first_chunk};
use requester_core::{Body, Command, FreeValues, RequesterCore};
use spdm_codec::read_request;
use spdm_grammar::names::message_type::SPDM;
use spdm_grammar::names::{
    MAX_MESSAGE_SIZE, MAX_OPAQUE_LEN, MAX_SESSIONS, PSK_EXCHANGE_FIELDS_LEN,
};
use spdm_grammar::{Exchange, Request};

// The most bytes of a PSK_EXCHANGE, and of its opaque data.
const MAX_LEN: usize = MAX_MESSAGE_SIZE as usize;

// Whether a body is this message in the clear.
fn is_clear_of(body: &[u8], message: &[u8]) -> bool
    ensures { Decides result (body.now ≡ clear_body message.now) }
{
    match body.split_first() {
        Some((&SPDM, rest)) => rest == message,
        _ => false,
    }
}

// Whether a command sends this message in the clear at these values, whole.
fn tells(
    asking: &mut RequesterCore,
    setup: &JudgedSetup,
    room: &mut Body,
    command: Command<'_>,
    free: &FreeValues<'_>,
    message: &[u8],
) -> bool
    requires least { 1 ≤ free.now.id }
    requires most { free.now.id ≤ MAX_SESSIONS }
    ensures { (q : ReqSetup) (h : History) (f : Free) → IsKeptSetup setup.now q
        → IsFree free.now f → f.pad ≡ [] → IsAllowed q h f → length h < 2 ^ 64 - 1
        → StandsFor asking.old q h → is_in_clear (command_of command.entry) ≡ true
        → IsToldAs q h (command_of command.entry) f (clear_body message.now) result asking.new }
{
    if asking
        .command(&setup.setup(), &setup.psk, command, free, &[], room)
        .is_err()
    {
        return false;
    }
    !is_first_chunk(room.as_slice()) && is_clear_of(room.as_slice(), message)
}

// The same of a command on whose message no value has any bearing.
fn tells_plainly(
    asking: &mut RequesterCore,
    setup: &JudgedSetup,
    room: &mut Body,
    command: Command<'_>,
    message: &[u8],
) -> bool
    ensures { (q : ReqSetup) (h : History) → IsKeptSetup setup.now q → length h < 2 ^ 64 - 1
        → StandsFor asking.old q h → is_in_clear (command_of command.entry) ≡ true → IsToldSome q h
        (command_of command.entry) (clear_body message.now) result asking.new }
{
    let free = FreeValues {
        id: asking.free_id(),
        context: &LONG_CONTEXT,
        opaque: &[],
    };
    tells(asking, setup, room, command, &free, message)
}

// Whether PSK_EXCHANGE with this context and opaque data, and with the own hint, is short enough.
fn is_short(setup: &JudgedSetup, exchange: &Exchange<'_>) -> bool
    ensures { Decides result (12 + length setup.now.hint + length exchange.now.context.now + length
        exchange.now.opaque.now ≤ MAX_MESSAGE_SIZE) }
{
    PSK_EXCHANGE_FIELDS_LEN
        .saturating_add(setup.hint.as_slice().len())
        .saturating_add(exchange.context.len())
        .saturating_add(exchange.opaque.len())
        <= MAX_LEN
}

// Whether the values in the fields of PSK_EXCHANGE are allowed, where one session more has room.
pub(crate) fn may_open(asking: &RequesterCore, setup: &JudgedSetup, exchange: &Exchange<'_>) -> bool
    ensures least { result ≡ true → 1 ≤ exchange.now.req_id }
    ensures most { result ≡ true → exchange.now.req_id ≤ 4 }
    ensures allowed { (q : ReqSetup) (h : History) → IsKeptSetup setup.now q
        → length h < 2 ^ 64 - 1 → outstanding h ≡ None → StandsFor asking.now q h → result ≡ true
        → IsAllowed q h (values_in (exchange_message exchange.now)) }
    ensures refused { (q : ReqSetup) (h : History) → IsKeptSetup setup.now q
        → length h < 2 ^ 64 - 1 → outstanding h ≡ None → StandsFor asking.now q h → result ≡ false
        → IsAllowed q h (values_in (exchange_message exchange.now)) → live_count h ≡ MAX_SESSIONS }
{
    let id = exchange.req_id;
    if id == 0 || id > MAX_SESSIONS as u16 {
        return false;
    }
    if asking.view(id).is_some() {
        return false;
    }
    if exchange.context.len() < asking.choice().hash.size() {
        return false;
    }
    if exchange.opaque.len() > MAX_OPAQUE_LEN {
        return false;
    }
    is_short(setup, exchange)
}

// Whether Open sends this PSK_EXCHANGE at the values in its fields.
fn opens(
    asking: &mut RequesterCore,
    setup: &JudgedSetup,
    room: &mut Body,
    exchange: &Exchange<'_>,
    message: &[u8],
) -> bool
    ensures { (q : ReqSetup) (h : History) → IsKeptSetup setup.now q → length h < 2 ^ 64 - 1
        → outstanding h ≡ None → StandsFor asking.old q h → IsOpenedAs q h
        (exchange_message exchange.now) (clear_body message.now) result asking.new }
{
    if !may_open(asking, setup, exchange) {
        return false;
    }
    let free = FreeValues {
        id: exchange.req_id,
        context: exchange.context,
        opaque: exchange.opaque,
    };
    let command = Command::Open {
        summary: exchange.summary,
    };
    tells(asking, setup, room, command, &free, message)
}

// Whether the command that asks this request sends it by this message in the clear, whole.
fn sends_request(
    asking: &mut RequesterCore,
    setup: &JudgedSetup,
    room: &mut Body,
    request: &Request<'_>,
    message: &[u8],
) -> bool
    ensures { (q : ReqSetup) (h : History) → IsKeptSetup setup.now q → length h < 2 ^ 64 - 1
        → outstanding h ≡ None → StandsFor asking.old q h → IsSentFor q h
        (request_message request.now) (clear_body message.now) result asking.new }
{
    match request {
        Request::GetVersion => tells_plainly(asking, setup, room, Command::Connect, message),
        Request::GetMeasurements { op } => {
            let command = Command::Measure {
                session: None,
                op: *op,
            };
            tells_plainly(asking, setup, room, command, message)
        }
        Request::PskExchange(exchange) => opens(asking, setup, room, exchange, message),
        Request::GetCapabilities(_)
        | Request::NegotiateAlgorithms(_)
        | Request::PskFinish { .. }
        | Request::Heartbeat
        | Request::KeyUpdate { .. }
        | Request::EndSession
        | Request::ChunkSend(_)
        | Request::ChunkGet { .. } => false,
    }
}

// Whether some command sends this message in the clear, where nothing is outstanding.
pub(crate) fn sends_clear(
    asking: &mut RequesterCore,
    setup: &JudgedSetup,
    room: &mut Body,
    message: &[u8],
) -> bool
    ensures { (q : ReqSetup) (h : History) → IsKeptSetup setup.now q → length h < 2 ^ 64 - 1
        → outstanding h ≡ None → StandsFor asking.old q h
        → IsSentByCommand q h (clear_body message.now) result asking.new }
{
    match read_request(message, 0) {
        Ok(request) => sends_request(asking, setup, room, &request, message),
        Err(_) => false,
    }
}
