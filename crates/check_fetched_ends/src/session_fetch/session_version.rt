ghost use Rattle.std.specs.Prelude.{◌≡◌, ◌≤◌, ◌<◌, ◌-◌, ◌^◌, ◌==◌, ℕ, List, None, Ok, IfOk, OnErr, IsSome, drop, length, slice_index, true};
ghost use Rattle.check_laws.specs.DropsShown.{id_begun, response_of};
ghost use Rattle.check_laws.specs.Order.{answered_why, body_in};
ghost use Rattle.check_laws.specs.RepliesShown.{responder_for};
ghost use Rattle.check_laws.specs.Rows.{StandsForRows};
ghost use Rattle.responder_core.specs.Setup.{IsSetUp};
ghost use Rattle.check_fetched_ends.specs.Fetched.{IsRepliedTo};
ghost use Rattle.check_fetched_ends.specs.InSession.{IsFetchedIn};
ghost use Rattle.check_fetched_ends.specs.declared.upon.Upon.TheVariants as upon;
ghost use Rattle.check_late_laws.specs.Fetching.{Fetching, IsFetchingOf};
ghost use Rattle.mctp_framing.specs.Cutting.{RouteFields};
ghost use Rattle.mctp_framing.specs.Gathering.Gathered.{Whole};
ghost use Rattle.requester_machine.specs.Setup.{ReqSetup};
ghost use Rattle.capture_machine.specs.SessionTable.{Row};
ghost use Rattle.world_machine.specs.Setup.{Configuration};
ghost use Rattle.spdm_grammar.specs.declared.names.TheConstants.{MAX_BODY_SIZE};
ghost use Rattle.spdm_grammar.specs.declared.names.message_type.TheConstants.{SPDM};

use crate::Upon;
use crate::session_fetch::in_session::InSession;
use check_ends::Party;
use check_laws::{Round, SessionTable, answer_accepts, whole_answer_changes};
use check_responder::{Given, Judged};
use responder_core::Setup;
use spdm_basis::OutOfMemory;
use spdm_grammar::Why;

/// An answer of at most 4,161 bytes came whole, in order after a request in the clear, while a large response is
/// fetched in a session. That request is GET_VERSION: VERSION ends the fetch, and all sessions, and any other answer is
/// refused.
pub(crate) fn replies_version(
    party: &mut Party,
    fetched: &InSession,
    table: &mut SessionTable,
    setup: &Setup<'_>,
    round: &Round,
    answer: &[u8],
) -> Result<Result<Upon, Why>, OutOfMemory>
    requires { length answer.now ≤ MAX_BODY_SIZE }
    ensures told { (w : Configuration) (q : ReqSetup) (older : List (List ℕ)) (rows : List Row)
        (f : Fetching) (route : RouteFields) → IsFetchingOf w q older f
        → length older < 2 ^ 64 - 2 → w.responder.beat < 256 → round.now ≡ f.kept.round
        → IsSetUp setup.now (responder_for w f.kept)
        → answered_why f.kept.round (Whole route answer.now) ≡ None
        → (slice_index (body_in round.now) 0 == SPDM) ≡ true
        → IsFetchedIn party.old fetched.now w q f rows
        → StandsForRows table.old w (length older) rows
        → IfOk result (λ told. IsRepliedTo w q older rows f route answer.now told party.new
        (IsFetchedIn party.new fetched.now w q) table.new) }
    ensures stays { IfOk result (λ told. (told ≡ Ok upon.Fetched → ⊥) → (told ≡ Ok upon.Turned → ⊥)
        → (told ≡ Ok upon.Ended → ⊥) → table.new ≡ table.old) }
    ensures memory { OnErr result (IsSome (id_begun (response_of (drop 1 answer.now)))) }
{
    answer_accepts();
    whole_answer_changes();
    let body = round.body();
    let why = party.answerer.reply_why(&party.keys, body, answer);
    match party.answerer.judges(setup, round.tag(), body, answer) {
        Judged::Given(Given::Whole) => {
            let heard = party.go_on(round, None, answer, false);
            let change = party.change(None, heard.accepted, None);
            table.take(&mut party.places, party.number, &change)?;
            Ok(Ok(Upon::Ended))
        }
        Judged::Given(Given::Large) => Ok(Err(why)),
        Judged::Given(Given::Last) => Ok(Err(why)),
        Judged::Apart => Ok(Err(why)),
        Judged::Refused => Ok(Err(why)),
    }
}
