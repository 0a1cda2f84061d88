ghost use Rattle.std.specs.Prelude.{◌≡◌, ◌≢◌, ◌<◌, ◌-◌, ◌^◌, ℕ, List, None, Ok, Some, IfOk, length};
ghost use Rattle.check_responder.specs.declared.answer_keys.AnswerKeys.{AnswerKeys};
ghost use Rattle.check_laws.specs.Order.{answered_why};
ghost use Rattle.check_laws.specs.RepliesShown.{responder_for};
ghost use Rattle.check_laws.specs.Rows.{StandsForRows};
ghost use Rattle.responder_core.specs.Setup.{IsSetUp};
ghost use Rattle.check_fetched_ends.specs.Fetched.{IsRepliedTo};
ghost use Rattle.check_fetched_ends.specs.Held.{IsHeldIn, IsShownHeld, StandsBefore};
ghost use Rattle.check_fetched_ends.specs.LastHeld.{begun_if};
ghost use Rattle.check_fetched_ends.specs.LastMarked.{MarksStandAt, begins_touched, is_touched_at};
ghost use Rattle.check_fetched_ends.specs.declared.clear_fetch.shown.Shown.TheVariants as shown;
ghost use Rattle.check_fetched_ends.specs.declared.upon.Upon.TheVariants as upon;
ghost use Rattle.check_late_laws.specs.Fetching.{Fetching, IsFetchingOf};
ghost use Rattle.check_late_laws.specs.Late.Marking.{StandsFor};
ghost use Rattle.mctp_framing.specs.Cutting.{RouteFields};
ghost use Rattle.mctp_framing.specs.Gathering.Gathered.{Whole};
ghost use Rattle.requester_machine.specs.Setup.{ReqSetup};
ghost use Rattle.responder_machine.specs.History.{History};
ghost use Rattle.responder_machine.specs.Setup.{RspSetup};
ghost use Rattle.responder_machine.specs.Turn.{takes};
ghost use Rattle.spdm_grammar.specs.Message.RequestMessage.{GetVersion};
ghost use Rattle.spdm_grammar.specs.Requests.{canonical_request};
ghost use Rattle.spdm_grammar.specs.declared.names.request_code.TheConstants.{PSK_EXCHANGE};
ghost use Rattle.spdm_machine.specs.Bodies.{clear_body};
ghost use Rattle.capture_machine.specs.Rounds as rounds;
ghost use Rattle.capture_machine.specs.SessionTable.{Row};
ghost use Rattle.world_machine.specs.Setup.{Configuration};

use crate::Upon;
use crate::clear_fetch::asked_exchange::asks_exchange;
use crate::clear_fetch::held::Held;
use crate::clear_fetch::held_late::leads_there;
use crate::clear_fetch::held_whole::rsp_id_in;
use crate::clear_fetch::led::Led;
use check_ends::Party;
use check_late_laws::Marks;
use check_laws::{Round, SessionTable, answer_accepts, last_chunk_changes};
use check_responder::JudgedResponder;
use responder_core::Setup;
use session_keys::{behind_type, byte_at};
use spdm_basis::OutOfMemory;
use spdm_grammar::Why;
use spdm_grammar::names::MAX_SESSIONS;

// Whether the request of the large response is PSK_EXCHANGE.
fn holds_exchange(answerer: &JudgedResponder, held: &Held) -> bool
    ensures { (r : RspSetup) (h : History) (keys : AnswerKeys)
        (b : StandsBefore answerer.now keys held.now r h) → result ≡ takes PSK_EXCHANGE b.turn }
{
    asks_exchange(&answerer.connection, held.request.as_slice())
}

// The RspSessionID of the session that these bytes begin, where the request is PSK_EXCHANGE.
fn begun_by(exchange: bool, whole: &[u8]) -> Option<u16>
    ensures { result ≡ begun_if exchange whole.now }
{
    if !exchange {
        return None;
    }
    if whole.is_empty() {
        return None;
    }
    Some(rsp_id_in(whole))
}

// Whether the session with this RspSessionID from 1 to 4 was touched.
fn is_touched_at(marks: &Marks, id: u16) -> bool
    ensures { (h : History) → StandsFor marks.now h → result ≡ is_touched_at id h }
{
    if id == 0 || id > MAX_SESSIONS as u16 {
        return false;
    }
    marks.is_touched(id)
}

// Whether the fetch began late, and the session that these bytes begin was touched since their request, which is
// PSK_EXCHANGE or not.
fn begins_touched(held: &Held, exchange: bool, whole: &[u8]) -> bool
    ensures { (h : History) → MarksStandAt held.now.late h
        → result ≡ begins_touched held.now.late exchange whole.now h }
{
    let Some(marks) = &held.late else {
        return false;
    };
    if !exchange {
        return false;
    }
    is_touched_at(marks, rsp_id_in(whole))
}

/// Handles a complete response of at most 4,161 bytes, next in order after this round, which is the last chunk of a
/// large response that is held: it ends the fetch; or why it is refused.
pub(crate) fn ends_by_chunk(
    party: &mut Party,
    held: &Held,
    table: &mut SessionTable,
    setup: &Setup<'_>,
    round: &Round,
    answer: &[u8],
) -> Result<Result<Upon, Why>, OutOfMemory>
    ensures told { (w : Configuration) (q : ReqSetup) (older : List (List ℕ)) (rows : List Row)
        (f : Fetching) (route : RouteFields) (of : rounds.Round) → IsFetchingOf w q older f
        → length older < 2 ^ 64 - 2 → w.responder.beat < 256 → round.now ≡ f.kept.round
        → f.kept.round ≡ Some of → of.body ≢ clear_body (canonical_request GetVersion)
        → IsShownHeld held.now of.tag of.body answer.now shown.Last
        → IsSetUp setup.now (responder_for w f.kept)
        → answered_why f.kept.round (Whole route answer.now) ≡ None
        → IsHeldIn party.old held.now w q f rows → StandsForRows table.old w (length older) rows
        → IfOk result (λ told. IsRepliedTo w q older rows f route answer.now told party.new
        (IsHeldIn party.new held.now w q) table.new) }
    ensures stays { IfOk result (λ told. (told ≡ Ok upon.Ended → ⊥) → table.new ≡ table.old) }
{
    let body = round.body();
    let tag = round.tag();
    let why = party.answerer.reply_why(&party.keys, body, answer);
    let Some(whole) = held.filled(behind_type(answer)) else {
        return Ok(Err(why));
    };
    let exchange = holds_exchange(&party.answerer, held);
    if begins_touched(held, exchange, whole.as_slice()) {
        return Ok(Err(why));
    }
    match leads_there(
        &mut party.answerer,
        held,
        exchange,
        setup,
        tag,
        byte_at(body, 4),
        whole.as_slice(),
    ) {
        Led::Whole => {}
        Led::Apart => return Ok(Err(Why::BadVerify)),
        Led::Other => return Ok(Err(why)),
    }
    let heard = party.asker.hears(tag, answer, true);
    if heard.fetches {
        return Ok(Err(why));
    }
    answer_accepts();
    last_chunk_changes();
    let begun = begun_by(exchange, whole.as_slice());
    let change = party.change(begun, heard.accepted, None);
    table.take(&mut party.places, party.number, &change)?;
    Ok(Ok(Upon::Ended))
}
