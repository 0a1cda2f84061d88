ghost use Rattle.std.specs.Prelude.{◌≡◌, ◌-◌, ◌<◌, ◌^◌, ◌∷◌};
ghost use Rattle.check_responder.specs.declared.answer_keys.AnswerKeys.{AnswerKeys};
ghost use Rattle.responder_core.specs.Connected as connected;
ghost use Rattle.responder_core.specs.LateFetch.{with_ended};
ghost use Rattle.responder_core.specs.Setup.{IsSetUp};
ghost use Rattle.responder_core.specs.declared.connected.Connection.{Connection};
ghost use Rattle.check_fetched_ends.specs.Held.{StandsBefore};
ghost use Rattle.check_fetched_ends.specs.LastHeld.{IsLastOf, IsLedSo, all_given, left_by};
ghost use Rattle.check_fetched_ends.specs.LastMarked.{with_ended_if};
ghost use Rattle.check_fetched_ends.specs.declared.clear_fetch.led.Led.TheVariants as led;
ghost use Rattle.responder_machine.specs.BoundLaws.{messages_of};
ghost use Rattle.responder_machine.specs.History.{History, ended_of};
ghost use Rattle.responder_machine.specs.History.Entry.{Clear};
ghost use Rattle.responder_machine.specs.Setup.{RspSetup};
ghost use Rattle.responder_machine.specs.Turn.{takes};
ghost use Rattle.spdm_grammar.specs.declared.names.request_code.TheConstants.{PSK_EXCHANGE};
ghost use Rattle.capture_machine.specs.Rounds.{no_draw};

use crate::clear_fetch::held::Held;
use crate::clear_fetch::held_whole::leads_to;
use crate::clear_fetch::led::Led;
use check_responder::JudgedResponder;
use responder_core::Setup;

// As `leads_to`, of a request that passed before: the last record of the session that ended is put back. It is handed
// in as the newest request, and PSK_EXCHANGE then forgets that record; at its place it came before END_SESSION.
fn leads_late(
    answerer: &mut JudgedResponder,
    held: &Held,
    exchange: bool,
    setup: &Setup<'_>,
    tag: u8,
    handle: u8,
    whole: &[u8],
) -> Led
    ensures told { (r : RspSetup) (h : History) (keys : AnswerKeys)
        (b : StandsBefore answerer.old keys held.now r h) → takes PSK_EXCHANGE b.turn ≡ exchange
        → IsSetUp setup.now r
        → messages_of b.left < 2 ^ 64 - 1 → r.beat < 256
        → IsLastOf held.now r b.before b.left (Clear held.now.tag b.turn no_draw) tag handle whole.now
        → IsLedSo r b.before (Clear held.now.tag b.turn no_draw) whole.now result }
    ensures stands { (r : RspSetup) (h : History) (keys : AnswerKeys)
        (b : StandsBefore answerer.old keys held.now r h) → takes PSK_EXCHANGE b.turn ≡ exchange
        → IsSetUp setup.now r
        → messages_of b.left < 2 ^ 64 - 1 → r.beat < 256
        → IsLastOf held.now r b.before b.left (Clear held.now.tag b.turn no_draw) tag handle whole.now
        → result ≡ led.Whole → (seen : Connection) × connected.StandsFor seen r (all_given tag handle
        whole.now (Clear held.now.tag b.turn no_draw ∷ left_by b.before b.left
        (Clear held.now.tag b.turn no_draw) whole.now))
        × (answerer.new.connection ≡ with_ended seen (ended_of b.left)) }
{
    let ended = answerer.connection.ended_record();
    let led = leads_to(answerer, held, exchange, setup, tag, handle, whole);
    answerer.connection.put_ended(ended);
    led
}

/// As `leads_to`, of a request that came last, or of one that passed before. Where the fetch began late, the connection
/// has the last record of the session that ended as it was.
pub(crate) fn leads_there(
    answerer: &mut JudgedResponder,
    held: &Held,
    exchange: bool,
    setup: &Setup<'_>,
    tag: u8,
    handle: u8,
    whole: &[u8],
) -> Led
    ensures told { (r : RspSetup) (h : History) (keys : AnswerKeys)
        (b : StandsBefore answerer.old keys held.now r h) → takes PSK_EXCHANGE b.turn ≡ exchange
        → IsSetUp setup.now r
        → messages_of b.left < 2 ^ 64 - 1 → r.beat < 256
        → IsLastOf held.now r b.before b.left (Clear held.now.tag b.turn no_draw) tag handle whole.now
        → IsLedSo r b.before (Clear held.now.tag b.turn no_draw) whole.now result }
    ensures stands { (r : RspSetup) (h : History) (keys : AnswerKeys)
        (b : StandsBefore answerer.old keys held.now r h) → takes PSK_EXCHANGE b.turn ≡ exchange
        → IsSetUp setup.now r
        → messages_of b.left < 2 ^ 64 - 1 → r.beat < 256
        → IsLastOf held.now r b.before b.left (Clear held.now.tag b.turn no_draw) tag handle whole.now
        → result ≡ led.Whole → (seen : Connection) × connected.StandsFor seen r (all_given tag handle
        whole.now (Clear held.now.tag b.turn no_draw ∷ left_by b.before b.left
        (Clear held.now.tag b.turn no_draw) whole.now))
        × (answerer.new.connection ≡ with_ended_if held.now.late (ended_of b.left) seen) }
{
    match &held.late {
        Some(_) => leads_late(answerer, held, exchange, setup, tag, handle, whole),
        None => leads_to(answerer, held, exchange, setup, tag, handle, whole),
    }
}
