ghost use Rattle.std.specs.Prelude.{◌≡◌, ◌≤◌, ◌<◌, ◌-◌, ◌^◌, None, Some, length};
ghost use Rattle.requester_core.specs.Joined.{StandsFor};
ghost use Rattle.requester_core.specs.Owed.{TookFor};
ghost use Rattle.requester_machine.specs.History.{History, outstanding};
ghost use Rattle.requester_machine.specs.May.{IsSetUp};
ghost use Rattle.requester_machine.specs.Message.{Sent};
ghost use Rattle.requester_machine.specs.Message.Command.{Connect};
ghost use Rattle.requester_machine.specs.Owed.{with_next};
ghost use Rattle.requester_machine.specs.Setup.{ReqSetup};
ghost use Rattle.check_requester.specs.JudgedRequester.{IsKeptSetup};
ghost use Rattle.check_requester.specs.Commanded.{IsSentByCommand};
ghost use Rattle.check_requester.specs.SealedTold.{IsSentBy};
ghost use Rattle.spdm_grammar.specs.declared.names.TheConstants.{MAX_BODY_SIZE};

use crate::clear_commands::sends_clear;
use crate::judged_setup::JudgedSetup;
use crate::owed_messages::LONG_CONTEXT;
use crate::sealed_commands::sends_sealed;
use check_laws::{is_clear, is_secured, rest_of};
use psk_session::InnerPair;
use requester_core::{Body, Command, FreeValues, RequesterCore};
use spdm_basis::RecordFrame;

// Whether Connect sends this body, whatever is outstanding.
pub(crate) fn connects(
    asking: &mut RequesterCore,
    setup: &JudgedSetup,
    room: &mut Body,
    body: &[u8],
) -> bool
    ensures { (q : ReqSetup) (h : History) → IsKeptSetup setup.now q → length h < 2 ^ 64 - 1
        → StandsFor asking.old q h → IsSentBy q h Connect body.now result asking.new }
{
    let free = FreeValues {
        id: asking.free_id(),
        context: &LONG_CONTEXT,
        opaque: &[],
    };
    let connect = Command::Connect;
    if asking
        .command(&setup.setup(), &setup.psk, connect, &free, &[], room)
        .is_err()
    {
        return false;
    }
    room.as_slice() == body
}

// Whether Connect sends this body in place of the message that is outstanding, which was to go out by itself in
// response to the last message.
pub(crate) fn connects_instead(asking: &mut RequesterCore, room: &mut Body, body: &[u8]) -> bool
    ensures { (q : ReqSetup) (bare : History) (sent : Sent) → IsSetUp q → TookFor bare sent.aim
        → StandsFor asking.old q (with_next (Some sent) bare)
        → IsSentBy q bare Connect body.now result asking.new }
{
    asking.restart_instead(room);
    room.as_slice() == body
}

// Whether some command sends this body of at most 4,161 bytes, where nothing is outstanding.
pub(crate) fn sends_command(
    asking: &mut RequesterCore,
    setup: &JudgedSetup,
    room: &mut Body,
    inner: &mut RecordFrame,
    pair: &mut InnerPair,
    body: &[u8],
) -> bool
    ensures { (q : ReqSetup) (h : History) → IsKeptSetup setup.now q → length h < 2 ^ 64 - 1
        → length body.now ≤ MAX_BODY_SIZE → outstanding h ≡ None → StandsFor asking.old q h
        → IsSentByCommand q h body.now result asking.new }
{
    if is_clear(body) {
        return sends_clear(asking, setup, room, rest_of(body));
    }
    if is_secured(body) {
        return sends_sealed(asking, setup, room, inner, pair, rest_of(body));
    }
    false
}
