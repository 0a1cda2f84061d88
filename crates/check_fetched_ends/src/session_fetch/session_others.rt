ghost use Rattle.std.specs.Prelude.{◌≡◌, ◌≤◌, ◌<◌, ◌-◌, ◌^◌, ℕ, List, None, Some, Ok, IfOk, OnErr, IsSome, drop, length};
ghost use Rattle.check_laws.specs.DropsShown.{id_begun, response_of};
ghost use Rattle.check_laws.specs.Order.{answered_why};
ghost use Rattle.check_laws.specs.RepliesShown.{responder_for};
ghost use Rattle.check_laws.specs.Rows.{StandsForRows};
ghost use Rattle.responder_core.specs.Connected.{StandsFor};
ghost use Rattle.responder_core.specs.Setup.{IsSetUp};
ghost use Rattle.check_fetched_laws.specs.JudgedFor.{JudgesFor};
ghost use Rattle.check_fetched_ends.specs.Fetched.{IsRepliedTo};
ghost use Rattle.check_fetched_ends.specs.InSession.{IsFetchedIn};
ghost use Rattle.check_fetched_ends.specs.SessionOthers.{IsOtherRound, MayForget, left_then};
ghost use Rattle.check_fetched_ends.specs.declared.upon.Upon.TheVariants as upon;
ghost use Rattle.check_late_laws.specs.Fetching.{Fetching, IsFetchingOf};
ghost use Rattle.mctp_framing.specs.Cutting.{RouteFields};
ghost use Rattle.mctp_framing.specs.Gathering.Gathered.{Whole};
ghost use Rattle.requester_machine.specs.Setup.{ReqSetup};
ghost use Rattle.responder_machine.specs.History.{History};
ghost use Rattle.responder_machine.specs.Setup.{RspSetup};
ghost use Rattle.capture_machine.specs.SessionTable.{Row};
ghost use Rattle.world_machine.specs.Setup.{Configuration};
ghost use Rattle.spdm_grammar.specs.declared.names.TheConstants.{MAX_BODY_SIZE};

use crate::Upon;
use crate::session_fetch::in_session::InSession;
use crate::session_fetch::session_prepared::prepared;
use check_ends::Party;
use check_fetched_laws::forget_bytes;
use check_laws::{Round, SessionTable, answer_accepts, large_answer_changes, whole_answer_changes};
use check_responder::Given;
use responder_core::{Connection, Setup};
use session_keys::behind_type;
use spdm_basis::OutOfMemory;
use spdm_grammar::Why;

// Whether a chunk is left to be given after an answer that gives none.
fn left_then(left: bool, live: bool, idle: bool, refuses: bool) -> bool
    ensures { result ≡ left_then left live idle refuses }
{
    left && live && (idle || refuses)
}

// The large response of the session was not seen: it is forgotten where a chunk of it is left to be given, and else not
// counted by the session, if that is live.
fn forgets(connection: &mut Connection, id: u16, left: bool, live: bool)
    ensures { (r : RspSetup) (h : History) (whole : List ℕ) → MayForget id h whole left live
        → JudgesFor connection.old r h (Some id) whole → StandsFor connection.new r h }
{
    if left {
        return forget_bytes(connection, id);
    }
    if live {
        connection.uncount_in(id);
    }
}

/// Handles a complete response of at most 4,161 bytes, next in order after a record, while a large response is fetched
/// in its session, and gives no chunk of it, whatever its bytes are: the connection judges it as it stands. A request
/// that a right answer refuses in the session, or takes there, is determined by `refuses`. Where the requester requests
/// no chunk in response, nothing is fetched after it, and the large response stays unseen. After LargeResponse that
/// stays unseen anyway; where the requester requests a chunk in response, the new large response is fetched from then
/// on, and else it stays unseen too.
pub(crate) fn judges_other(
    party: &mut Party,
    fetched: &mut InSession,
    table: &mut SessionTable,
    setup: &Setup<'_>,
    round: &Round,
    answer: &[u8],
    refuses: bool,
) -> Result<Result<Upon, Why>, OutOfMemory>
    requires { length answer.now ≤ MAX_BODY_SIZE }
    ensures told { (w : Configuration) (q : ReqSetup) (older : List (List ℕ)) (rows : List Row)
        (f : Fetching) (route : RouteFields) → IsFetchingOf w q older f
        → length older < 2 ^ 64 - 2 → w.responder.beat < 256 → round.now ≡ f.kept.round
        → IsSetUp setup.now (responder_for w f.kept)
        → answered_why f.kept.round (Whole route answer.now) ≡ None
        → IsOtherRound (responder_for w f.kept) fetched.old f answer.now refuses
        → IsFetchedIn party.old fetched.old w q f rows
        → StandsForRows table.old w (length older) rows
        → IfOk result (λ told. IsRepliedTo w q older rows f route answer.now told party.new
        (IsFetchedIn party.new fetched.new w q) table.new) }
    ensures stays { IfOk result (λ told. (told ≡ Ok upon.Fetched → ⊥) → (told ≡ Ok upon.Turned → ⊥)
        → (told ≡ Ok upon.Ended → ⊥) → table.new ≡ table.old) }
    ensures memory { OnErr result (IsSome (id_begun (response_of (drop 1 answer.now)))) }
{
    answer_accepts();
    whole_answer_changes();
    large_answer_changes();
    let body = round.body();
    let request = behind_type(body);
    let large = prepared(&party.answerer.connection, setup, request);
    let why = party.answerer.reply_why(&party.keys, body, answer);
    let key = party.answerer.coming_key(body);
    let taken = party.answerer.taken(body, answer);
    match party.answerer.answers_record(setup, request, answer) {
        Some(Given::Whole) => {
            let heard = party.go_on(round, key, answer, true);
            let live = party.answerer.connection.view(fetched.id).is_some();
            let left = left_then(fetched.left, live, taken.is_none(), refuses);
            let change = party.change(None, heard.accepted, taken);
            table.take(&mut party.places, party.number, &change)?;
            if heard.fetches {
                fetched.left = left;
                return Ok(Ok(Upon::Fetched));
            }
            forgets(&mut party.answerer.connection, fetched.id, left, live);
            Ok(Ok(Upon::Ended))
        }
        Some(Given::Large) => {
            let Some(next) = large else {
                return Ok(Err(why));
            };
            let heard = party.go_on(round, key, answer, true);
            let change = party.change(None, heard.accepted, taken);
            table.take(&mut party.places, party.number, &change)?;
            party.answerer.connection.uncount_in(next.id);
            if !heard.fetches {
                party.answerer.connection.forget_in(next.id);
                return Ok(Ok(Upon::Ended));
            }
            *fetched = next;
            Ok(Ok(Upon::Turned))
        }
        Some(Given::Last) => Ok(Err(why)),
        None => Ok(Err(why)),
    }
}
