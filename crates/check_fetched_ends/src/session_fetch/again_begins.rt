ghost use Rattle.std.specs.Prelude.{◌≡◌, ◌≤◌, ◌<◌, ◌-◌, ◌^◌, ℕ, List, None, IfOk, OnErr, length};
ghost use Rattle.check_ends.specs.Party.{IsParty};
ghost use Rattle.check_laws.specs.Keeping.{Keeps, Kept};
ghost use Rattle.check_laws.specs.Order.{answered_why};
ghost use Rattle.check_laws.specs.RepliesShown.{responder_for};
ghost use Rattle.check_laws.specs.Rows.{StandsForRows};
ghost use Rattle.responder_core.specs.Setup.{IsSetUp};
ghost use Rattle.check_fetched_ends.specs.AgainBegins.{IsBegunAgain};
ghost use Rattle.mctp_framing.specs.Cutting.{RouteFields};
ghost use Rattle.mctp_framing.specs.Gathering.Gathered.{Whole};
ghost use Rattle.requester_machine.specs.Setup.{ReqSetup};
ghost use Rattle.capture_machine.specs.SessionTable.{Row};
ghost use Rattle.world_machine.specs.Setup.{Configuration};
ghost use Rattle.spdm_grammar.specs.declared.names.TheConstants.{MAX_BODY_SIZE};

use crate::session_fetch::in_session::{InSession, zeros};
use crate::session_fetch::session_again::prepared_again;
use check_ends::Party;
use check_fetched_laws::blocks_are_few;
use check_laws::{Round, SessionTable, answer_accepts};
use responder_core::Setup;
use session_keys::{behind_type, byte_at};
use spdm_basis::OutOfMemory;
use spdm_grammar::names::message_type::SPDM;

/// What is reported of an answer to a record while nothing is fetched.
#[derive(Drop)]
pub enum BegunAgain {
    /// It is not LargeResponse again: nothing was done.
    Not,
    /// It is, and the requester requests no chunk in response: it goes on.
    Passed,
    /// It is, and the requester requests a chunk in response.
    Fetching(InSession),
}

/// Handles a complete response of at most 4,161 bytes, next in order after this round, while nothing is fetched and no
/// large request is in progress: it is told whether it is LargeResponse that comes again in a session, by which a fetch
/// begins or does not.
pub fn begins_again(
    party: &mut Party,
    table: &mut SessionTable,
    setup: &Setup<'_>,
    round: &Round,
    answer: &[u8],
) -> Result<BegunAgain, OutOfMemory>
    requires { length answer.now ≤ MAX_BODY_SIZE }
    ensures told { (w : Configuration) (q : ReqSetup) (older : List (List ℕ)) (rows : List Row)
        (k : Kept) (route : RouteFields) → Keeps w q older k → length older < 2 ^ 64 - 2
        → w.responder.beat < 256 → round.now ≡ k.round → IsSetUp setup.now (responder_for w k)
        → answered_why k.round (Whole route answer.now) ≡ None → IsParty party.old w q k rows
        → StandsForRows table.old w (length older) rows
        → IfOk result (λ begun. IsBegunAgain w q older rows k route answer.now begun party.new
        table.old table.new) }
    ensures memory { OnErr result ⊥ }
{
    answer_accepts();
    blocks_are_few(setup);
    let body = round.body();
    if byte_at(body, 0) == SPDM {
        return Ok(BegunAgain::Not);
    }
    if byte_at(answer, 0) == SPDM {
        return Ok(BegunAgain::Not);
    }
    let request = behind_type(body);
    let sealed = behind_type(answer);
    let Some(again) = prepared_again(&party.answerer.connection, setup, request, sealed) else {
        return Ok(BegunAgain::Not);
    };
    let heard = party.go_on(round, None, answer, false);
    let change = party.change(None, heard.accepted, None);
    table.take(&mut party.places, party.number, &change)?;
    if !heard.fetches {
        return Ok(BegunAgain::Passed);
    }
    let fetched = again.fetched;
    let bytes = zeros(fetched.least);
    party
        .answerer
        .connection
        .make_pending(fetched.id, bytes, again.handle);
    Ok(BegunAgain::Fetching(fetched))
}
