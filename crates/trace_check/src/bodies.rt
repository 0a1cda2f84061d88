ghost use Rattle.std.specs.Prelude.{◌≡◌, ◌≤◌, ◌<◌, ◌-◌, ◌^◌, ℕ, List, IfOk, OnOk, None, length};
ghost use Rattle.check_ends.specs.Conversation.{IsAnswer, IsRequest};
ghost use Rattle.check_laws.specs.Judged.{waiting_in};
ghost use Rattle.check_laws.specs.Order.{round_answered, round_by_request, round_of};
ghost use Rattle.check_laws.specs.Rows.{StandsForRows};
ghost use Rattle.responder_core.specs.Setup.{IsSetUp};
ghost use Rattle.check_fetched_ends.specs.MarkedEnds as marked_ends;
ghost use Rattle.mctp_framing.specs.Cutting.{route_of};
ghost use Rattle.mctp_framing.specs.Gathering.Gathered.{Whole};
ghost use Rattle.requester_machine.specs.Setup.{ReqSetup};
ghost use Rattle.responder_machine.specs.Setup.{towards};
ghost use Rattle.trace_check.specs.Bodies.{IsAnswerJudged, IsRequestJudged};
ghost use Rattle.capture_machine.specs.SessionTable.{Row};
ghost use Rattle.world_machine.specs.Setup.{Configuration, known_of};
ghost use Rattle.spdm_grammar.specs.declared.names.TheConstants.{MAX_BODY_SIZE};

use crate::ordering::{answered_why, asked_why};
use check_fetched_ends::MarkedEnds;
use check_laws::{Round, SessionTable};
use mctp_framing::Route;
use responder_core::Setup;
use spdm_basis::OutOfMemory;
use spdm_grammar::Why;

// A request of at most 4,161 bytes came whole: it goes on, and so does the round, or it is refused and then why.
pub(crate) fn takes_request(
    round: &mut Round,
    ends: &mut MarkedEnds,
    table: &mut SessionTable,
    route: Route,
    body: &[u8],
) -> Result<(), Why>
    ensures told { (w : Configuration) (q : ReqSetup) (older : List (List ℕ)) (rows : List Row)
        (packet : List ℕ) → IsRequest w q older packet (route_of route) body.now
        → length older < 2 ^ 64 - 2 → length body.now ≤ MAX_BODY_SIZE
        → round.old ≡ round_of w.responder.eid q.eid older
        → marked_ends.StandsFor ends.old w q older rows
        → StandsForRows table.old w (length older) rows
        → IsRequestJudged w q older rows packet (route_of route) body.now result ends.new
        table.new }
    ensures round { waiting_in round.old < 2 ^ 64 - 1 → length body.now ≤ MAX_BODY_SIZE
        → OnOk result (round.new ≡ round_by_request round.old (Whole (route_of route) body.now)) }
{
    if let Some(why) = asked_why(round, route, body) {
        return Err(why);
    }
    match ends.asks(table, round, route.tag, body) {
        Ok(()) => {
            round.ask(route.tag, body);
            Ok(())
        }
        Err(why) => Err(why),
    }
}

// An answer of at most 4,161 bytes came whole: it goes on, and so does the round, or it is refused and then why. An
// `Err` comes for allocation failure.
pub(crate) fn takes_answer(
    round: &mut Round,
    ends: &mut MarkedEnds,
    table: &mut SessionTable,
    setup: &Setup<'_>,
    route: Route,
    answer: &[u8],
) -> Result<Result<(), Why>, OutOfMemory>
    requires { length answer.now ≤ MAX_BODY_SIZE }
    ensures told { (w : Configuration) (q : ReqSetup) (older : List (List ℕ)) (rows : List Row)
        (packet : List ℕ) → IsAnswer w q older packet (route_of route) answer.now
        → length older < 2 ^ 64 - 2 → w.responder.beat < 256
        → round.old ≡ round_of w.responder.eid q.eid older
        → IsSetUp setup.now (towards w.responder (known_of q))
        → marked_ends.StandsFor ends.old w q older rows
        → StandsForRows table.old w (length older) rows
        → IfOk result (λ told. IsAnswerJudged w q older rows packet (route_of route) answer.now told
        ends.new table.new) }
    ensures round { IfOk result (λ told. OnOk told (round.new ≡ round_answered round.old)) }
{
    if let Some(why) = answered_why(round, route, answer) {
        return Ok(Err(why));
    }
    match ends.replies(table, setup, round, answer)? {
        Ok(()) => {
            round.answer();
            Ok(Ok(()))
        }
        Err(why) => Ok(Err(why)),
    }
}
