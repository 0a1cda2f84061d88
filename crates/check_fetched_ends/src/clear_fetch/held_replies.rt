ghost use Rattle.std.specs.Prelude.{◌≡◌, ◌≤◌, ◌<◌, ◌-◌, ◌^◌, ◌↔◌, ℕ, List, None, Ok, IfOk, IsTrue, length};
ghost use Rattle.check_laws.specs.Order.{answered_why};
ghost use Rattle.check_laws.specs.RepliesShown.{responder_for};
ghost use Rattle.check_laws.specs.Rows.{StandsForRows};
ghost use Rattle.responder_core.specs.Setup.{IsSetUp};
ghost use Rattle.check_fetched_ends.specs.Fetched.{IsRepliedTo};
ghost use Rattle.check_fetched_ends.specs.Held.{IsHeldIn};
ghost use Rattle.check_fetched_ends.specs.declared.upon.Upon.TheVariants as upon;
ghost use Rattle.check_late_laws.specs.Fetching.{Fetching, IsFetchingOf};
ghost use Rattle.mctp_framing.specs.Cutting.{RouteFields};
ghost use Rattle.mctp_framing.specs.Gathering.Gathered.{Whole};
ghost use Rattle.requester_machine.specs.Setup.{ReqSetup};
ghost use Rattle.spdm_grammar.specs.Message.RequestMessage.{GetVersion};
ghost use Rattle.spdm_grammar.specs.Requests.{canonical_request};
ghost use Rattle.spdm_machine.specs.Bodies.{clear_body};
ghost use Rattle.capture_machine.specs.SessionTable.{Row};
ghost use Rattle.world_machine.specs.Setup.{Configuration};
ghost use Rattle.spdm_grammar.specs.declared.names.TheConstants.{MAX_BODY_SIZE};

use crate::Upon;
use crate::clear_fetch::held::Held;
use crate::clear_fetch::held_heard::hears_on;
use crate::clear_fetch::held_last::ends_by_chunk;
use crate::clear_fetch::held_version::ends_by_version;
use crate::clear_fetch::shown::Shown;
use check_ends::Party;
use check_fetched_laws::blocks_are_few;
use check_laws::{Round, SessionTable};
use responder_core::Setup;
use spdm_basis::OutOfMemory;
use spdm_grammar::Why;
use spdm_grammar::names::message_type::SPDM;

// GET_VERSION in the clear: its version is 1.0, and it has no fields (DSP0274).
const VERSION_BODY: [u8; 5] = [SPDM, 0x10, 0x84, 0, 0];

// Whether a body is GET_VERSION.
fn asks_version(body: &[u8]) -> bool
    ensures { IsTrue result ↔ (clear_body (canonical_request GetVersion) ≡ body.now) }
{
    VERSION_BODY.as_slice() == body
}

/// Handles a complete response of at most 4,161 bytes, next in order after this round, while a large response is
/// fetched in the clear: it is accepted and the session table updated; or the reason why it is refused.
pub fn replies_held(
    party: &mut Party,
    held: &mut Held,
    table: &mut SessionTable,
    setup: &Setup<'_>,
    round: &Round,
    answer: &[u8],
) -> Result<Result<Upon, Why>, OutOfMemory>
    requires { length answer.now ≤ MAX_BODY_SIZE }
    ensures told { (w : Configuration) (q : ReqSetup) (older : List (List ℕ)) (rows : List Row)
        (f : Fetching) (route : RouteFields) → IsFetchingOf w q older f
        → length older < 2 ^ 64 - 2 → w.responder.beat < 256 → round.now ≡ f.kept.round
        → IsSetUp setup.now (responder_for w f.kept)
        → answered_why f.kept.round (Whole route answer.now) ≡ None
        → IsHeldIn party.old held.old w q f rows → StandsForRows table.old w (length older) rows
        → IfOk result (λ told. IsRepliedTo w q older rows f route answer.now told party.new
        (IsHeldIn party.new held.new w q) table.new) }
    ensures stays { IfOk result (λ told. (told ≡ Ok upon.Fetched → ⊥) → (told ≡ Ok upon.Ended → ⊥)
        → table.new ≡ table.old) }
{
    let body = round.body();
    if asks_version(body) {
        return ends_by_version(party, table, setup, round, answer);
    }
    match held.shows(round.tag(), body, answer) {
        Shown::Same => {
            blocks_are_few(setup);
            hears_on(party, table, round, answer)?;
            Ok(Ok(Upon::Fetched))
        }
        Shown::Between => {
            hears_on(party, table, round, answer)?;
            held.takes(round.tag(), body, answer);
            Ok(Ok(Upon::Fetched))
        }
        Shown::Last => ends_by_chunk(party, held, table, setup, round, answer),
        Shown::Other => Ok(Err(party.answerer.reply_why(&party.keys, body, answer))),
    }
}
