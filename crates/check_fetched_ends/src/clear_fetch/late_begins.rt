ghost use Rattle.std.specs.Prelude.{◌≡◌, ◌≢◌, ◌≤◌, ◌<◌, ◌+◌, ◌-◌, ◌^◌, ◌&&◌, ℕ, List, None, Some, IfOk, OnErr, true, false, length};
ghost use Rattle.check_ends.specs.Party.{IsParty};
ghost use Rattle.check_laws.specs.Keeping.{Keeps, Kept};
ghost use Rattle.check_laws.specs.Order.{answered_why};
ghost use Rattle.check_laws.specs.RepliesShown.{responder_for};
ghost use Rattle.check_laws.specs.Rows.{StandsForRows};
ghost use Rattle.responder_core.specs.Connected.{StandsFor};
ghost use Rattle.responder_core.specs.Setup.{IsSetUp};
ghost use Rattle.check_fetched_ends.specs.HeldAgain.{IsHeldAgain};
ghost use Rattle.check_fetched_ends.specs.LateBegins.{IsBegunLate, gets_again, is_free_body, is_large_body};
ghost use Rattle.check_fetched_ends.specs.Marked.{MarksStand};
ghost use Rattle.mctp_framing.specs.Cutting.{RouteFields};
ghost use Rattle.mctp_framing.specs.Gathering.Gathered.{Whole};
ghost use Rattle.requester_machine.specs.Setup.{ReqSetup};
ghost use Rattle.responder_machine.specs.History.{History, clear_turns, negotiation_of};
ghost use Rattle.responder_machine.specs.Place.{clear_place};
ghost use Rattle.responder_machine.specs.Refusal.{has_pending};
ghost use Rattle.responder_machine.specs.Setup.{RspSetup};
ghost use Rattle.spdm_machine.specs.Terms.{terms_of};
ghost use Rattle.capture_machine.specs.SessionTable.{Row};
ghost use Rattle.world_machine.specs.Setup.{Configuration};
ghost use Rattle.spdm_grammar.specs.declared.names.TheConstants.{MAX_MESSAGE_SIZE};

use crate::clear_fetch::held::Held;
use crate::clear_fetch::held_begins::BegunHeld;
use crate::clear_fetch::held_version::least_values;
use crate::session_fetch::in_session::MOST_BYTES;
use check_ends::Party;
use check_fetched_laws::blocks_are_few;
use check_late_laws::{LargeAnswer, Marks};
use check_laws::{Round, SessionTable, answer_accepts};
use responder_core::{Connection, KeptReply, Setup};
use session_keys::{behind_type, byte_at, same_bytes};
use spdm_basis::{Frame, OutOfMemory};
use spdm_grammar::names::error_number::LARGE_RESPONSE;
use spdm_grammar::names::message_type::SPDM;
use spdm_grammar::names::request_code::{GET_MEASUREMENTS, PSK_EXCHANGE};
use spdm_grammar::names::response_code::ERROR;

// Whether a body is GET_MEASUREMENTS or PSK_EXCHANGE in the clear.
fn is_free_body(body: &[u8]) -> bool
    ensures { result ≡ is_free_body body.now }
{
    let code = byte_at(behind_type(body), 1);
    byte_at(body, 0) == SPDM && (code == GET_MEASUREMENTS || code == PSK_EXCHANGE)
}

// Whether an answer is LargeResponse in the clear.
fn is_large_body(answer: &[u8]) -> bool
    ensures { result ≡ is_large_body answer.now }
{
    let reply = behind_type(answer);
    byte_at(answer, 0) == SPDM && byte_at(reply, 1) == ERROR && byte_at(reply, 2) == LARGE_RESPONSE
}

/// Whether an answer is LargeResponse in the clear, and its request GET_MEASUREMENTS or PSK_EXCHANGE.
pub(crate) fn may_begin_late(body: &[u8], answer: &[u8]) -> bool
    ensures { result ≡ (is_free_body body.now && is_large_body answer.now) }
{
    is_free_body(body) && is_large_body(answer)
}

// Whether a message in the clear is a repeat that gets this reply again.
fn gets_again(
    connection: &Connection,
    setup: &Setup<'_>,
    tag: u8,
    message: &[u8],
    reply: &[u8],
) -> bool
    ensures again { (r : RspSetup) (h : History) → IsSetUp setup.now r → StandsFor connection.now r h
        → has_pending (clear_place h) ≡ false → result ≡ gets_again h tag message.now reply.now }
    ensures few { result ≡ true → length reply.now ≤ MAX_MESSAGE_SIZE }
{
    if !connection.is_repeat(tag, message) {
        return false;
    }
    let values = least_values(connection);
    let mut kept = Frame::new();
    let _ = connection.would_answer(setup, tag, message, &values, &mut kept);
    same_bytes(kept.as_slice(), reply)
}

// Another tag.
fn other_tag(tag: u8) -> u8
    ensures { result ≢ tag }
{
    if tag == 0 { 1 } else { 0 }
}

// A frame with these bytes.
fn frame_of(bytes: &[u8]) -> Frame
    ensures { length bytes.now ≤ MAX_MESSAGE_SIZE → result ≡ bytes.now }
{
    let mut frame = Frame::new();
    let _ = frame.extend(bytes);
    frame
}

// What is held after LargeResponse again to a message with this tag, while these marks are set.
fn held_again(connection: &Connection, marks: &Marks, tag: u8, message: &[u8], reply: &[u8]) -> Held
    ensures { (r : RspSetup) (h : History) → StandsFor connection.now r h
        → length message.now ≤ MAX_MESSAGE_SIZE → length reply.now ≤ MAX_MESSAGE_SIZE
        → IsHeldAgain (terms_of (negotiation_of (clear_turns h))).common marks.now tag message.now
        reply.now result }
{
    let common = connection.common();
    let max = common.to_requester.max as usize;
    let mut newest = KeptReply::new();
    newest.keep(tag, message, reply);
    Held {
        tag: other_tag(tag),
        request: frame_of(message),
        reply: frame_of(reply),
        least: common.to_requester.transfer as usize + 1,
        most: if max > MOST_BYTES { MOST_BYTES } else { max },
        transfer: common.to_requester.transfer,
        answer: LargeAnswer::new(),
        newest,
        late: Some(marks.copy()),
    }
}

/// Handles a complete response of at most 4,161 bytes, next in order after this round, while nothing is fetched and no
/// large request is in progress: it is told whether it is LargeResponse again to GET_MEASUREMENTS or PSK_EXCHANGE in
/// the clear, by which a fetch begins late or does not. These are the marks of the sessions that were touched since.
/// Any other answer is left as it is: then nothing was done.
pub fn begins_late(
    party: &mut Party,
    table: &mut SessionTable,
    setup: &Setup<'_>,
    marks: &Marks,
    round: &Round,
    answer: &[u8],
) -> Result<BegunHeld, OutOfMemory>
    ensures told { (w : Configuration) (q : ReqSetup) (older : List (List ℕ)) (rows : List Row)
        (k : Kept) (route : RouteFields) → Keeps w q older k → length older < 2 ^ 64 - 2
        → w.responder.beat < 256 → round.now ≡ k.round → IsSetUp setup.now (responder_for w k)
        → answered_why k.round (Whole route answer.now) ≡ None → IsParty party.old w q k rows
        → MarksStand marks.now w q older → StandsForRows table.old w (length older) rows
        → IfOk result (λ begun. IsBegunLate w q older rows k route answer.now begun party.old
        party.new table.old table.new) }
    ensures memory { OnErr result ⊥ }
{
    let body = round.body();
    let tag = round.tag();
    let message = behind_type(body);
    let reply = behind_type(answer);
    if !is_free_body(body) {
        return Ok(BegunHeld::Not);
    }
    if !is_large_body(answer) {
        return Ok(BegunHeld::Not);
    }
    blocks_are_few(setup);
    if !gets_again(&party.answerer.connection, setup, tag, message, reply) {
        return Ok(BegunHeld::Not);
    }
    let held = held_again(&party.answerer.connection, marks, tag, message, reply);
    let heard = party.asker.hears(tag, answer, false);
    answer_accepts();
    let change = party.change(None, heard.accepted, None);
    table.take(&mut party.places, party.number, &change)?;
    if heard.fetches {
        return Ok(BegunHeld::Fetching(held));
    }
    Ok(BegunHeld::Passed)
}
