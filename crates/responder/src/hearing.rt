ghost use Rattle.std.specs.Prelude.{◌≡◌, ◌≤◌, ◌<◌, ◌^◌, ◌-◌, ℕ, length};
ghost use Rattle.responder_core.specs.ClearPart.{is_drawn};
ghost use Rattle.responder_core.specs.Connected.{IsDone, StandsFor};
ghost use Rattle.responder_core.specs.Setup.{IsSetUp};
ghost use Rattle.session_keys.specs.Drawing.{draw_as};
ghost use Rattle.responder_machine.specs.BoundLaws.{messages_of};
ghost use Rattle.responder_machine.specs.Does.{IsMade, clear_does, first_queued, record_does};
ghost use Rattle.responder_machine.specs.History.{History, queue_of};
ghost use Rattle.responder_machine.specs.Setup.{RspSetup};
ghost use Rattle.spdm_grammar.specs.declared.names.TheConstants.{MAX_OPAQUE_LEN};

use crate::body::{write_body, write_reply};
use crate::room::Room;
use hmac_hkdf::Drawn;
use responder_core::{Connection, FreeValues, Setup};
use session_keys::context_of;
use spdm_basis::Buffer;
use spdm_grammar::Heard;
use spdm_grammar::names::MAX_APP_DATA_LEN;
use spdm_grammar::names::message_type::SPDM;

// Overwrites `reply` with the next application data to send in reply.
fn write_next_reply(connection: &Connection, reply: &mut Buffer<MAX_APP_DATA_LEN>)
    ensures { (r : RspSetup) (h : History) → StandsFor connection.now r h
        → reply.new ≡ first_queued (queue_of h) }
{
    reply.clear();
    let _ = reply.extend(connection.next_reply());
}

/// Handles a clear message with its tag. `drawn` has 32 fresh pseudo-random bytes, for the context of PSK_EXCHANGE_RSP
/// or the nonce of MEASUREMENTS: they are used up where one of these requests takes effect (`Connection::is_drawn`).
/// The response body overwrites the room's `body`.
pub(crate) fn hear_clear(
    connection: &mut Connection,
    setup: &Setup<'_>,
    tag: u8,
    message: &[u8],
    drawn: &Drawn,
    room: &mut Room,
) -> Heard
    requires { length setup.now.opaque.now ≤ MAX_OPAQUE_LEN }
    ensures done { (r : RspSetup) (h : History) → IsSetUp setup.now r → IsMade r h
        → StandsFor connection.old r h
        → IsDone r h (clear_does r h tag message.now (draw_as drawn.now)) result room.new.body
        connection.new }
    ensures drawn { (r : RspSetup) (h : History) → IsSetUp setup.now r → IsMade r h
        → StandsFor connection.old r h → connection.new.drawn
        ≡ is_drawn (clear_does r h tag message.now (draw_as drawn.now)) }
    ensures filled { 0 < length room.new.body }
{
    let context = context_of(connection.choice().hash, drawn);
    write_next_reply(connection, &mut room.reply);
    let free = FreeValues {
        id: connection.free_id(),
        context: context.as_slice(),
        exchange_opaque: setup.opaque,
        nonce: drawn.bytes,
        measured_opaque: &[],
        handle: connection.next_handle(),
        reply: room.reply.as_slice(),
        pad: &[],
    };
    let heard = connection.on_clear(setup, tag, message, &free, &mut room.message);
    write_body(SPDM, room.message.as_slice(), &mut room.body);
    heard
}

/// Handles a record. `drawn` has 32 fresh pseudo-random bytes, for the nonce of MEASUREMENTS: they are used up where
/// GET_MEASUREMENTS takes effect (`Connection::is_drawn`). The response body overwrites the room's `body`.
pub(crate) fn hear_record(
    connection: &mut Connection,
    setup: &Setup<'_>,
    sealed: &[u8],
    drawn: &Drawn,
    room: &mut Room,
) -> Heard
    ensures done { (r : RspSetup) (h : History) (tag : ℕ) → IsSetUp setup.now r
        → messages_of h < 2 ^ 64 - 1 → StandsFor connection.old r h
        → IsDone r h (record_does r h tag sealed.now (draw_as drawn.now)) result room.new.body
        connection.new }
    ensures drawn { (r : RspSetup) (h : History) (tag : ℕ) → IsSetUp setup.now r
        → messages_of h < 2 ^ 64 - 1 → StandsFor connection.old r h → connection.new.drawn
        ≡ is_drawn (record_does r h tag sealed.now (draw_as drawn.now)) }
    ensures filled { 0 < length room.new.body }
{
    let heard = connection.on_record_chosen(
        setup,
        sealed,
        &drawn.bytes,
        room.work.as_mut(),
        &mut room.record,
    );
    write_reply(heard, room.record.as_slice(), &mut room.body);
    heard
}
