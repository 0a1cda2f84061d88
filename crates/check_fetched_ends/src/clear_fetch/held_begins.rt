ghost use Rattle.std.specs.Prelude.{◌≡◌, ◌≤◌, ◌<◌, ◌-◌, ◌^◌, ◌==◌, ℕ, List, None, IfOk, OnErr, length, slice_index, if◌then◌else◌};
ghost use Rattle.check_ends.specs.Party.{IsParty};
ghost use Rattle.check_laws.specs.Keeping.{Keeps, Kept};
ghost use Rattle.check_laws.specs.Order.{answered_why};
ghost use Rattle.check_laws.specs.RepliesShown.{responder_for};
ghost use Rattle.check_laws.specs.Rows.{StandsForRows};
ghost use Rattle.responder_core.specs.Connected.{StandsFor};
ghost use Rattle.responder_core.specs.Setup.{IsSetUp};
ghost use Rattle.check_fetched_ends.specs.BegunHeld.{IsBegunHeld};
ghost use Rattle.check_fetched_ends.specs.HeldFrom.{IsHeldFrom};
ghost use Rattle.mctp_framing.specs.Cutting.{RouteFields};
ghost use Rattle.mctp_framing.specs.Gathering.Gathered.{Whole};
ghost use Rattle.requester_machine.specs.Setup.{ReqSetup};
ghost use Rattle.responder_machine.specs.History.{History, clear_turns, negotiation_of};
ghost use Rattle.responder_machine.specs.Setup.{RspSetup};
ghost use Rattle.spdm_grammar.specs.declared.names.response_code.TheConstants.{CHUNK_SEND_ACK};
ghost use Rattle.spdm_machine.specs.Terms.{terms_of};
ghost use Rattle.capture_machine.specs.SessionTable.{Row};
ghost use Rattle.world_machine.specs.Setup.{Configuration};
ghost use Rattle.spdm_grammar.specs.declared.names.TheConstants.{MAX_BODY_SIZE, MAX_MESSAGE_SIZE};

use crate::clear_fetch::asked_exchange::asks_exchange;
use crate::clear_fetch::handshake_left::leave_handshake;
use crate::clear_fetch::held::Held;
use crate::session_fetch::in_session::MOST_BYTES;
use check_ends::Party;
use check_late_laws::LargeAnswer;
use check_laws::{Round, SessionTable, answer_accepts, large_answer_changes};
use responder_core::{Connection, KeptReply, Setup};
use session_keys::{behind_type, byte_at};
use spdm_basis::{Frame, OutOfMemory};
use spdm_grammar::names::message_type::SPDM;
use spdm_grammar::names::request_code::PSK_EXCHANGE;
use spdm_grammar::names::response_code::CHUNK_SEND_ACK;

/// What is reported of an answer in the clear while nothing is fetched.
#[derive(Drop)]
pub enum BegunHeld {
    /// It is no LargeResponse to a request in the clear by what it shows: nothing was done.
    Not,
    /// It is LargeResponse, and the requester requests no chunk in response: it goes on, and its answer is never seen.
    /// The request is GET_MEASUREMENTS or PSK_EXCHANGE, whole in one message.
    Passed,
    /// A large response is fetched from then on.
    Fetching(Held),
}

// A frame with these bytes.
fn frame_of(bytes: &[u8]) -> Frame
    ensures { length bytes.now ≤ MAX_MESSAGE_SIZE → result ≡ bytes.now }
{
    let mut frame = Frame::new();
    let _ = frame.extend(bytes);
    frame
}

// How many bytes stand round an answer that is sent so: an acknowledgement has six before its response.
fn bytes_round(reply: &[u8]) -> usize
    ensures value { result ≡ (if slice_index reply.now 1 == CHUNK_SEND_ACK then 6 else 0) }
    ensures few { result ≤ 6 }
{
    if byte_at(reply, 1) == CHUNK_SEND_ACK {
        6
    } else {
        0
    }
}

// What is held after LargeResponse to a message with this tag.
fn held_from(connection: &Connection, tag: u8, message: &[u8], reply: &[u8]) -> Held
    ensures { (r : RspSetup) (h : History) → StandsFor connection.now r h
        → length message.now ≤ MAX_MESSAGE_SIZE → length reply.now ≤ MAX_MESSAGE_SIZE
        → IsHeldFrom (terms_of (negotiation_of (clear_turns h))).common tag
        (if slice_index reply.now 1 == CHUNK_SEND_ACK then 6 else 0) message.now reply.now result }
{
    let common = connection.common();
    let max = common.to_requester.max as usize;
    let mut newest = KeptReply::new();
    newest.keep(tag, message, reply);
    Held {
        tag,
        request: frame_of(message),
        reply: frame_of(reply),
        least: (common.to_requester.transfer as usize + 1).saturating_sub(bytes_round(reply)),
        most: if max > MOST_BYTES { MOST_BYTES } else { max },
        transfer: common.to_requester.transfer,
        answer: LargeAnswer::new(),
        newest,
        late: None,
    }
}

/// Handles a complete response of at most 4,161 bytes, next in order after this round, while nothing is fetched and no
/// large request is in progress: it is told whether it is LargeResponse in the clear, by which a fetch begins or does
/// not.
pub fn begins_held(
    party: &mut Party,
    table: &mut SessionTable,
    setup: &Setup<'_>,
    round: &Round,
    answer: &[u8],
) -> Result<BegunHeld, OutOfMemory>
    requires { length answer.now ≤ MAX_BODY_SIZE }
    ensures told { (w : Configuration) (q : ReqSetup) (older : List (List ℕ)) (rows : List Row)
        (k : Kept) (route : RouteFields) → Keeps w q older k → length older < 2 ^ 64 - 2
        → w.responder.beat < 256 → round.now ≡ k.round → IsSetUp setup.now (responder_for w k)
        → answered_why k.round (Whole route answer.now) ≡ None → IsParty party.old w q k rows
        → StandsForRows table.old w (length older) rows
        → IfOk result (λ begun. IsBegunHeld w q older rows k route answer.now begun party.new
        table.old table.new) }
    ensures memory { OnErr result ⊥ }
{
    let body = round.body();
    let message = behind_type(body);
    let reply = behind_type(answer);
    let tag = round.tag();
    if byte_at(body, 0) != SPDM {
        return Ok(BegunHeld::Not);
    }
    if byte_at(answer, 0) != SPDM {
        return Ok(BegunHeld::Not);
    }
    if !party.answerer.tells_large(setup, tag, message, reply) {
        return Ok(BegunHeld::Not);
    }
    let held = held_from(&party.answerer.connection, tag, message, reply);
    let heard = party.asker.hears(tag, answer, false);
    answer_accepts();
    large_answer_changes();
    if !heard.fetches {
        let code = byte_at(message, 1);
        let exchange = code == PSK_EXCHANGE;
        party
            .answerer
            .connection
            .skip_large_response(tag, message, reply, exchange);
        let change = party.change(None, None, None);
        table.take(&mut party.places, party.number, &change)?;
        return Ok(BegunHeld::Passed);
    }
    let exchange = asks_exchange(&party.answerer.connection, message);
    leave_handshake(&mut party.answerer.connection, exchange);
    let change = party.change(None, None, None);
    table.take(&mut party.places, party.number, &change)?;
    Ok(BegunHeld::Fetching(held))
}
