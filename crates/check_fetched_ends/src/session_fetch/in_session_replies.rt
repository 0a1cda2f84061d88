ghost use Rattle.std.specs.Prelude.{◌≡◌, ◌≤◌, ◌<◌, ◌-◌, ◌^◌, ℕ, List, None, Ok, IfOk, OnErr, IsSome, drop, length};
ghost use Rattle.responder_core.specs.Setup.{IsSetUp};
ghost use Rattle.mctp_framing.specs.Cutting.{RouteFields};
ghost use Rattle.mctp_framing.specs.Gathering.Gathered.{Whole};
ghost use Rattle.requester_machine.specs.Setup.{ReqSetup};
ghost use Rattle.check_laws.specs.DropsShown.{id_begun, response_of};
ghost use Rattle.check_laws.specs.Order.{answered_why};
ghost use Rattle.check_laws.specs.RepliesShown.{responder_for};
ghost use Rattle.check_laws.specs.Rows.{StandsForRows};
ghost use Rattle.check_fetched_ends.specs.Fetched.{IsRepliedTo};
ghost use Rattle.check_fetched_ends.specs.InSession.{IsFetchedIn};
ghost use Rattle.check_fetched_ends.specs.declared.upon.Upon.TheVariants as upon;
ghost use Rattle.check_late_laws.specs.Fetching.{Fetching, IsFetchingOf};
ghost use Rattle.capture_machine.specs.SessionTable.{Row};
ghost use Rattle.world_machine.specs.Setup.{Configuration};
ghost use Rattle.spdm_grammar.specs.declared.names.TheConstants.{MAX_BODY_SIZE};

use crate::Upon;
use crate::session_fetch::chunk_judged::judges_chunk;
use crate::session_fetch::in_session::InSession;
use crate::session_fetch::session_others::judges_other;
use crate::session_fetch::session_texts::{chunk_in, holds_error, reads_text};
use crate::session_fetch::session_version::replies_version;
use check_ends::Party;
use check_fetched_laws::put_bytes;
use check_laws::{Round, SessionTable};
use responder_core::Setup;
use session_keys::byte_at;
use spdm_basis::{OutOfMemory, RecordFrame};
use spdm_grammar::Why;
use spdm_grammar::names::message_type::SPDM;

/// Handles a complete response of at most 4,161 bytes, next in order after this round, while a large response is
/// fetched in a session: it is accepted and the session table updated; or the reason why it is refused.
pub fn replies_in_session(
    party: &mut Party,
    fetched: &mut InSession,
    table: &mut SessionTable,
    setup: &Setup<'_>,
    round: &Round,
    answer: &[u8],
) -> Result<Result<Upon, Why>, OutOfMemory>
    requires { length answer.now ≤ MAX_BODY_SIZE }
    ensures told { (w : Configuration) (q : ReqSetup) (older : List (List ℕ)) (rows : List Row)
        (f : Fetching) (route : RouteFields) → IsFetchingOf w q older f
        → length older < 2 ^ 64 - 2 → w.responder.beat < 256 → round.now ≡ f.kept.round
        → IsSetUp setup.now (responder_for w f.kept)
        → answered_why f.kept.round (Whole route answer.now) ≡ None
        → IsFetchedIn party.old fetched.old w q f rows
        → StandsForRows table.old w (length older) rows
        → IfOk result (λ told. IsRepliedTo w q older rows f route answer.now told party.new
        (IsFetchedIn party.new fetched.new w q) table.new) }
    ensures stays { IfOk result (λ told. (told ≡ Ok upon.Fetched → ⊥) → (told ≡ Ok upon.Turned → ⊥)
        → (told ≡ Ok upon.Ended → ⊥) → table.new ≡ table.old) }
    ensures memory { OnErr result (IsSome (id_begun (response_of (drop 1 answer.now)))) }
{
    let body = round.body();
    if byte_at(body, 0) == SPDM {
        return replies_version(party, fetched, table, setup, round, answer);
    }
    if !fetched.left {
        return judges_other(party, fetched, table, setup, round, answer, false);
    }
    if byte_at(answer, 0) == SPDM {
        return judges_other(party, fetched, table, setup, round, answer, false);
    }
    let mut text = RecordFrame::new();
    if !reads_text(&mut party.answerer, body, answer, &mut text) {
        return judges_other(party, fetched, table, setup, round, answer, false);
    }
    let Some(message) = chunk_in(text.as_slice()) else {
        let refuses = holds_error(text.as_slice());
        return judges_other(party, fetched, table, setup, round, answer, refuses);
    };
    let why = party.answerer.reply_why(&party.keys, body, answer);
    let Some(whole) = fetched.filled(message) else {
        return Ok(Err(why));
    };
    put_bytes(&mut party.answerer.connection, fetched.id, whole.as_slice());
    match judges_chunk(
        party,
        fetched,
        table,
        setup,
        round,
        answer,
        message,
        whole.as_slice(),
    )? {
        Some(upon) => Ok(Ok(upon)),
        None => Ok(Err(why)),
    }
}
