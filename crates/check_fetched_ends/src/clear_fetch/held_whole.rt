//! What a large answer in the clear comes to at its last chunk. Here it is decided that its verify data alone are wrong
//! (`bad-verify`): `led_by`.
ghost use Rattle.std.specs.Prelude.{◌≡◌, ◌-◌, ◌<◌, ◌^◌, ◌∷◌, Some, length, take};
ghost use Rattle.check_responder.specs.declared.answer_keys.AnswerKeys.{AnswerKeys};
ghost use Rattle.check_laws.specs.DropsShown.{dropped_for};
ghost use Rattle.responder_core.specs.Connected as connected;
ghost use Rattle.responder_core.specs.Setup.{IsSetUp};
ghost use Rattle.check_fetched_ends.specs.Held.{StandsBefore};
ghost use Rattle.check_fetched_ends.specs.LastHeld.{IsLastOf, IsLedSo, all_given, drops_if, led_by, left_by};
ghost use Rattle.check_fetched_ends.specs.declared.clear_fetch.led.Led.TheVariants as led;
ghost use Rattle.responder_machine.specs.BoundLaws.{messages_of};
ghost use Rattle.responder_machine.specs.History.{History};
ghost use Rattle.responder_machine.specs.History.Entry.{Clear};
ghost use Rattle.responder_machine.specs.May.{with_dropped};
ghost use Rattle.responder_machine.specs.Setup.{RspSetup};
ghost use Rattle.responder_machine.specs.Turn.{takes};
ghost use Rattle.spdm_grammar.specs.declared.names.request_code.TheConstants.{PSK_EXCHANGE};
ghost use Rattle.spdm_machine.specs.Sessions.{id_in_exchange};
ghost use Rattle.capture_machine.specs.Difference.{is_apart};
ghost use Rattle.capture_machine.specs.Rounds.{no_draw};

use crate::clear_fetch::held::Held;
use crate::clear_fetch::held_given::give_all;
use crate::clear_fetch::led::Led;
use byteorder::{ByteOrder, LittleEndian};
use check_responder::JudgedResponder;
use responder_core::{Connection, Setup};
use session_keys::{byte_at, same_bytes};
use spdm_basis::Frame;
use spdm_grammar::names::response_code::PSK_EXCHANGE_RSP;

/// RspSessionID of a PSK_EXCHANGE_RSP.
pub(crate) fn rsp_id_in(response: &[u8]) -> u16
    ensures { result ≡ id_in_exchange response.now }
{
    let id = [byte_at(response, 4), byte_at(response, 5)];
    LittleEndian::read_u16(&id)
}

// The session with this RspSessionID is gone, where it may have been dropped without a trace.
fn drop_timed(connection: &mut Connection, id: u16)
    ensures { (r : RspSetup) (h : History) → connected.StandsFor connection.old r h
        → connected.StandsFor connection.new r (with_dropped h (dropped_for h (Some id))) }
{
    if connection.is_timed(id) {
        connection.expire(id);
    }
}

// A message without so many bytes at its end.
fn front(message: &[u8], size: usize) -> &[u8]
    ensures { result.now ≡ take (length message.now - size) message.now }
{
    let len = message.len().saturating_sub(size);
    &message[..len]
}

// Whether two messages of one length differ in so many last bytes alone.
fn is_apart(size: usize, one: &[u8], other: &[u8]) -> bool
    ensures { result ≡ is_apart size one.now other.now }
{
    if one.len() != other.len() {
        return false;
    }
    if same_bytes(one, other) {
        return false;
    }
    same_bytes(front(one, size), front(other, size))
}

// What is reported of these bytes, where the request leads to those that are given. Verify data have so many bytes.
fn led_by(size: usize, given: &[u8], whole: &[u8]) -> Led
    ensures { result ≡ led_by size given.now whole.now }
{
    if same_bytes(given, whole) {
        return Led::Whole;
    }
    if byte_at(given, 1) != PSK_EXCHANGE_RSP {
        return Led::Other;
    }
    if is_apart(size, given, whole) {
        return Led::Apart;
    }
    Led::Other
}

// The session that these bytes show as dropped is gone, where the request is PSK_EXCHANGE.
fn drop_shown(connection: &mut Connection, exchange: bool, whole: &[u8])
    ensures { (r : RspSetup) (h : History) → connected.StandsFor connection.old r h
        → connected.StandsFor connection.new r (with_dropped h (drops_if exchange h whole.now)) }
{
    if exchange {
        drop_timed(connection, rsp_id_in(whole));
    }
}

/// These bytes came as the large response that is held, under CHUNK_GETs with this handle, of which the last one has
/// this tag: what its request, PSK_EXCHANGE or not, leads to at the values that they show. Where it leads to them, the
/// connection stands for what is after all chunks.
pub(crate) fn leads_to(
    answerer: &mut JudgedResponder,
    held: &Held,
    exchange: bool,
    setup: &Setup<'_>,
    tag: u8,
    handle: u8,
    whole: &[u8],
) -> Led
    ensures told { (r : RspSetup) (h : History) (keys : AnswerKeys)
        (b : StandsBefore answerer.old keys held.now r h) → takes PSK_EXCHANGE b.turn ≡ exchange
        → IsSetUp setup.now r
        → messages_of b.left < 2 ^ 64 - 1 → r.beat < 256
        → IsLastOf held.now r b.before b.left (Clear held.now.tag b.turn no_draw) tag handle whole.now
        → IsLedSo r b.before (Clear held.now.tag b.turn no_draw) whole.now result }
    ensures stands { (r : RspSetup) (h : History) (keys : AnswerKeys)
        (b : StandsBefore answerer.old keys held.now r h) → takes PSK_EXCHANGE b.turn ≡ exchange
        → IsSetUp setup.now r
        → messages_of b.left < 2 ^ 64 - 1 → r.beat < 256
        → IsLastOf held.now r b.before b.left (Clear held.now.tag b.turn no_draw) tag handle whole.now
        → result ≡ led.Whole → connected.StandsFor answerer.new.connection r (all_given tag handle
        whole.now (Clear held.now.tag b.turn no_draw ∷ left_by b.before b.left
        (Clear held.now.tag b.turn no_draw) whole.now)) }
{
    let message = held.request.as_slice();
    let size = answerer.connection.choice().hash.size();
    drop_shown(&mut answerer.connection, exchange, whole);
    if !answerer.leads_to_large(setup, held.tag, message, held.reply.as_slice(), whole) {
        return Led::Other;
    }
    let last = held.answer.number();
    let mut given = Frame::new();
    if !give_all(
        &mut answerer.connection,
        setup,
        tag,
        handle,
        last,
        &mut given,
    ) {
        return Led::Other;
    }
    led_by(size, given.as_slice(), whole)
}
