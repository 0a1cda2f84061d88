ghost use Rattle.std.specs.Prelude.{◌≡◌, ◌≤◌, ◌<◌, ◌-◌, ◌^◌, ℕ, List, None, Ok, true, IfOk, OnErr, IsSome, drop, length};
ghost use Rattle.check_ends.specs.Party.{IsParty};
ghost use Rattle.check_laws.specs.DropsShown.{id_begun, response_of};
ghost use Rattle.check_laws.specs.Keeping.{Keeps, Kept};
ghost use Rattle.check_laws.specs.Order.{answered_why};
ghost use Rattle.check_laws.specs.RepliesShown.{responder_for};
ghost use Rattle.check_laws.specs.Rows.{StandsForRows};
ghost use Rattle.responder_core.specs.Setup.{IsSetUp};
ghost use Rattle.check_fetched_ends.specs.BegunIn.{IsBegunIn, leaves_table};
ghost use Rattle.mctp_framing.specs.Cutting.{RouteFields};
ghost use Rattle.mctp_framing.specs.Gathering.Gathered.{Whole};
ghost use Rattle.requester_machine.specs.Setup.{ReqSetup};
ghost use Rattle.capture_machine.specs.SessionTable.{Row};
ghost use Rattle.world_machine.specs.Setup.{Configuration};
ghost use Rattle.spdm_grammar.specs.declared.names.TheConstants.{MAX_BODY_SIZE};

use crate::session_fetch::in_session::InSession;
use crate::session_fetch::session_prepared::prepared;
use check_ends::{Continuation, Party};
use check_laws::{Round, SessionTable, answer_accepts, large_answer_changes};
use check_responder::Given;
use responder_core::Setup;
use session_keys::{behind_type, byte_at};
use spdm_basis::OutOfMemory;
use spdm_grammar::Why;
use spdm_grammar::names::message_type::SPDM;

/// What is reported of an answer while nothing is fetched.
#[derive(Drop)]
pub enum BegunIn {
    /// The request or the answer is in the clear, or the request asks for no large response in a session: what is kept
    /// stays.
    Not,
    /// It is LargeResponse in a session, and the requester requests a chunk in response.
    Fetching(InSession),
    /// It goes on otherwise, or why it is refused.
    Told(Result<Continuation, Why>),
}

/// Handles a complete response of at most 4,161 bytes, next in order after this round, while nothing is fetched: a
/// fetch begins by it in a session, and the table of sessions goes on; or it is told how it goes on otherwise, or why
/// it is refused. Where the request is none of a session whose answer may be sent in chunks, or the answer is in the
/// clear, nothing is told. LargeResponse in response to which the requester asks for no chunk goes on, and its answer
/// is never seen. Nothing is said of what is kept where the answer is refused, where the requester asks for a chunk on
/// one that goes whole, and where it is a last chunk.
pub fn begins_in_session(
    party: &mut Party,
    table: &mut SessionTable,
    setup: &Setup<'_>,
    round: &Round,
    answer: &[u8],
) -> Result<BegunIn, OutOfMemory>
    requires { length answer.now ≤ MAX_BODY_SIZE }
    ensures told { (w : Configuration) (q : ReqSetup) (older : List (List ℕ)) (rows : List Row)
        (k : Kept) (route : RouteFields) → Keeps w q older k → length older < 2 ^ 64 - 2
        → w.responder.beat < 256 → round.now ≡ k.round → IsSetUp setup.now (responder_for w k)
        → answered_why k.round (Whole route answer.now) ≡ None → IsParty party.old w q k rows
        → StandsForRows table.old w (length older) rows
        → IfOk result (λ begun. IsBegunIn w q older rows k route answer.now begun party.new table.old
        table.new) }
    ensures stays { IfOk result (λ begun. leaves_table begun ≡ true → table.new ≡ table.old) }
    ensures memory { OnErr result (IsSome (id_begun (response_of (drop 1 answer.now)))) }
{
    answer_accepts();
    large_answer_changes();
    let body = round.body();
    if byte_at(body, 0) == SPDM {
        return Ok(BegunIn::Not);
    }
    if byte_at(answer, 0) == SPDM {
        return Ok(BegunIn::Not);
    }
    let request = behind_type(body);
    let Some(fetched) = prepared(&party.answerer.connection, setup, request) else {
        return Ok(BegunIn::Not);
    };
    let why = party.answerer.reply_why(&party.keys, body, answer);
    let Some(key) = party.answerer.coming_key(body) else {
        return Ok(BegunIn::Not);
    };
    let taken = party.answerer.taken(body, answer);
    match party.answerer.answers_record(setup, request, answer) {
        Some(Given::Whole) => {
            let heard = party.go_on(round, Some(key), answer, false);
            if heard.fetches {
                return Ok(BegunIn::Told(Ok(Continuation::Asked(why))));
            }
            let change = party.change(None, heard.accepted, taken);
            table.take(&mut party.places, party.number, &change)?;
            Ok(BegunIn::Told(Ok(Continuation::Kept)))
        }
        Some(Given::Large) => {
            let heard = party.go_on(round, Some(key), answer, false);
            let change = party.change(None, heard.accepted, taken);
            table.take(&mut party.places, party.number, &change)?;
            if !heard.fetches {
                party.answerer.connection.forget_in(fetched.id);
                return Ok(BegunIn::Told(Ok(Continuation::Kept)));
            }
            Ok(BegunIn::Fetching(fetched))
        }
        Some(Given::Last) => Ok(BegunIn::Told(Ok(Continuation::Large))),
        None => Ok(BegunIn::Told(Err(why))),
    }
}
