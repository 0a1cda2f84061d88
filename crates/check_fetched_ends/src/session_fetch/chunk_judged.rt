ghost use Rattle.std.specs.Prelude.{◌≡◌, ◌≤◌, ◌<◌, ◌-◌, ◌^◌, ℕ, List, None, Ok, Some, IfOk, OnErr, IsSome, drop, length};
ghost use Rattle.responder_core.specs.Setup.{IsSetUp};
ghost use Rattle.mctp_framing.specs.Cutting.{RouteFields};
ghost use Rattle.mctp_framing.specs.Gathering.Gathered.{Whole};
ghost use Rattle.requester_machine.specs.Setup.{ReqSetup};
ghost use Rattle.check_laws.specs.DropsShown.{id_begun, response_of};
ghost use Rattle.check_laws.specs.Order.{answered_why, body_in};
ghost use Rattle.check_laws.specs.RepliesShown.{responder_for};
ghost use Rattle.check_laws.specs.Rows.{StandsForRows};
ghost use Rattle.check_fetched_ends.specs.ChunkJudged.{IsChunkJudged};
ghost use Rattle.check_fetched_ends.specs.InSession.{IsFetchedIn, IsReadIn};
ghost use Rattle.check_fetched_ends.specs.declared.upon.Upon.TheVariants as upon;
ghost use Rattle.check_late_laws.specs.Fetching.{Fetching, IsFetchingOf};
ghost use Rattle.capture_machine.specs.SessionTable.{Row};
ghost use Rattle.world_machine.specs.Setup.{Configuration};
ghost use Rattle.spdm_grammar.specs.declared.names.TheConstants.{MAX_BODY_SIZE};

use crate::Upon;
use crate::session_fetch::in_session::InSession;
use crate::session_fetch::whole_measured::is_measured;
use check_ends::Party;
use check_fetched_laws::forget_bytes;
use check_laws::{Round, SessionTable, answer_accepts, last_chunk_changes, whole_answer_changes};
use check_responder::Given;
use responder_core::Setup;
use session_keys::behind_type;
use spdm_basis::OutOfMemory;

/// An answer to a record is judged, whose text holds this CHUNK_RESPONSE: these bytes stand for the large response, and
/// the connection judges with them. None where it is not right.
pub(crate) fn judges_chunk(
    party: &mut Party,
    fetched: &mut InSession,
    table: &mut SessionTable,
    setup: &Setup<'_>,
    round: &Round,
    answer: &[u8],
    message: &[u8],
    whole: &[u8],
) -> Result<Option<Upon>, OutOfMemory>
    requires { length answer.now ≤ MAX_BODY_SIZE }
    ensures told { (w : Configuration) (q : ReqSetup) (older : List (List ℕ)) (rows : List Row)
        (f : Fetching) (route : RouteFields) → IsFetchingOf w q older f
        → length older < 2 ^ 64 - 2 → w.responder.beat < 256 → round.now ≡ f.kept.round
        → IsSetUp setup.now (responder_for w f.kept)
        → answered_why f.kept.round (Whole route answer.now) ≡ None
        → IsReadIn party.old fetched.old w q f rows (body_in round.now) answer.now message.now whole.now
        → StandsForRows table.old w (length older) rows
        → IfOk result (λ told. IsChunkJudged w q older rows f route answer.now whole.now fetched.old told
        party.new (IsFetchedIn party.new fetched.new w q) table.new) }
    ensures stays { IfOk result (λ told. (told ≡ Some upon.Fetched → ⊥) → (told ≡ Some upon.Turned → ⊥)
        → (told ≡ Some upon.Ended → ⊥) → table.new ≡ table.old) }
    ensures memory { OnErr result (IsSome (id_begun (response_of (drop 1 answer.now)))) }
{
    answer_accepts();
    whole_answer_changes();
    last_chunk_changes();
    let body = round.body();
    let key = party.answerer.coming_key(body);
    let taken = party.answerer.taken(body, answer);
    match party
        .answerer
        .answers_record(setup, behind_type(body), answer)
    {
        Some(Given::Whole) => {
            let heard = party.go_on(round, key, answer, true);
            let change = party.change(None, heard.accepted, taken);
            table.take(&mut party.places, party.number, &change)?;
            if !heard.fetches {
                forget_bytes(&mut party.answerer.connection, fetched.id);
                return Ok(Some(Upon::Ended));
            }
            fetched.answer.take(message);
            Ok(Some(Upon::Fetched))
        }
        Some(Given::Last) => {
            if !is_measured(setup, fetched.op, whole) {
                return Ok(None);
            }
            let heard = party.go_on(round, key, answer, true);
            if heard.fetches {
                return Ok(None);
            }
            let change = party.change(None, heard.accepted, taken);
            table.take(&mut party.places, party.number, &change)?;
            Ok(Some(Upon::Ended))
        }
        Some(Given::Large) => Ok(None),
        None => Ok(None),
    }
}
