ghost use Rattle.std.specs.Prelude.{◌≡◌, ◌≤◌, ◌<◌, ◌-◌, ◌^◌, ℕ, Some, is_some, length, slice_index};
ghost use Rattle.requester_core.specs.Joined.{StandsFor};
ghost use Rattle.requester_core.specs.Owed.{TookFor, TookLast};
ghost use Rattle.requester_machine.specs.History.{History, outstanding};
ghost use Rattle.requester_machine.specs.Message as message;
ghost use Rattle.requester_machine.specs.Message.{Sent, body_of};
ghost use Rattle.requester_machine.specs.Message.Aim.{InSession};
ghost use Rattle.requester_machine.specs.Setup.{ReqSetup};
ghost use Rattle.check_requester.specs.JudgedRequester.{IsKeptSetup, IsSentOwed, is_first_chunk};
ghost use Rattle.requester_machine.specs.Owed.{with_next};
ghost use Rattle.spdm_grammar.specs.declared.names.TheConstants.{MAX_BODY_SIZE};

use crate::judged_setup::JudgedSetup;
use check_laws::byte_at;
use psk_session::InnerPair;
use requester_core::{Body, Command, FreeValues, RequesterCore};
use spdm_grammar::names::message_type::SECURED;
use spdm_grammar::names::request_code::CHUNK_SEND;

// A context that is long enough for each hash.
pub(crate) const LONG_CONTEXT: [u8; 48] = [0; 48];

// Whether a body is CHUNK_SEND in the clear, with the first chunk of a request.
pub fn is_first_chunk(body: &[u8]) -> bool
    ensures { result ≡ is_first_chunk body.now }
{
    byte_at(body, 2) == CHUNK_SEND && byte_at(body, 5) == 0 && byte_at(body, 6) == 0
}

// Whether a message is outstanding, whose body overwrites `room`. Which values are free does not matter.
pub(crate) fn write_outstanding(
    asking: &mut RequesterCore,
    setup: &JudgedSetup,
    room: &mut Body,
) -> bool
    ensures waits { (q : ReqSetup) (h : History) → IsKeptSetup setup.now q
        → length h < 2 ^ 64 - 1 → StandsFor asking.old q h → result ≡ is_some (outstanding h) }
    ensures stands { (q : ReqSetup) (h : History) → IsKeptSetup setup.now q
        → length h < 2 ^ 64 - 1 → StandsFor asking.old q h → StandsFor asking.new q h }
    ensures room { (q : ReqSetup) (h : History) (sent : Sent) → IsKeptSetup setup.now q
        → length h < 2 ^ 64 - 1 → StandsFor asking.old q h → outstanding h ≡ Some sent
        → room.new ≡ body_of sent.content }
{
    let free = FreeValues {
        id: asking.free_id(),
        context: &LONG_CONTEXT,
        opaque: &[],
    };
    let again = Command::Retry;
    asking
        .command(&setup.setup(), &setup.psk, again, &free, &[], room)
        .is_ok()
}

// Takes a body as the record that is owed.
fn take_record(asking: &mut RequesterCore, pair: &mut InnerPair, body: &[u8]) -> bool
    ensures { (q : ReqSetup) (bare : History) (sent : Sent) (id : ℕ) (ask : message.Ask)
        → TookLast bare id → sent.aim ≡ InSession id ask → length body.now ≤ MAX_BODY_SIZE
        → StandsFor asking.old q (with_next (Some sent) bare)
        → IsSentOwed q bare sent body.now result asking.new }
{
    match body.split_first() {
        Some((&SECURED, sealed)) => asking.take_padded(sealed, pair),
        _ => false,
    }
}

// Takes a body of at most 4,161 bytes as the message that is owed: whether it is that, with some padding where it is a
// record.
pub(crate) fn sends_owed(
    asking: &mut RequesterCore,
    setup: &JudgedSetup,
    room: &mut Body,
    pair: &mut InnerPair,
    body: &[u8],
) -> bool
    ensures { (q : ReqSetup) (bare : History) (sent : Sent) → IsKeptSetup setup.now q
        → TookFor bare sent.aim → length bare < 2 ^ 64 - 1 → length body.now ≤ MAX_BODY_SIZE
        → StandsFor asking.old q (with_next (Some sent) bare)
        → IsSentOwed q bare sent body.now result asking.new }
{
    let _ = write_outstanding(asking, setup, room);
    if byte_at(room.as_slice(), 0) == SECURED {
        return take_record(asking, pair, body);
    }
    !is_first_chunk(room.as_slice()) && room.as_slice() == body
}
