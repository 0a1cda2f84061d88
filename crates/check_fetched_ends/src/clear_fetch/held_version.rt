ghost use Rattle.std.specs.Prelude.{◌≡◌, ◌≤◌, ◌<◌, ◌-◌, ◌^◌, ◌↔◌, ◌∷◌, ℕ, List, None, Ok, IfOk, IsTrue, OnErr, length};
ghost use Rattle.check_laws.specs.AnswersShown.{least_values};
ghost use Rattle.check_laws.specs.Order.{answered_why};
ghost use Rattle.check_laws.specs.RepliesShown.{responder_for};
ghost use Rattle.check_laws.specs.Rows.{StandsForRows};
ghost use Rattle.responder_core.specs.Connected.{StandsFor, context_len};
ghost use Rattle.responder_core.specs.Free.{IsFree};
ghost use Rattle.responder_core.specs.Setup.{IsSetUp};
ghost use Rattle.check_fetched_laws.specs.StandsAlike.{IsAnew, version_entry};
ghost use Rattle.check_fetched_ends.specs.Fetched.{IsRepliedTo};
ghost use Rattle.check_fetched_ends.specs.Held.{IsHeldIn};
ghost use Rattle.check_fetched_ends.specs.declared.clear_fetch.held.Held.{Held};
ghost use Rattle.check_fetched_ends.specs.declared.upon.Upon.TheVariants as upon;
ghost use Rattle.check_late_laws.specs.Fetching.{Fetching, IsFetchingOf};
ghost use Rattle.mctp_framing.specs.Cutting.{RouteFields};
ghost use Rattle.mctp_framing.specs.Gathering.Gathered.{Whole};
ghost use Rattle.requester_machine.specs.Setup.{ReqSetup};
ghost use Rattle.responder_machine.specs.Answer.{version_answer};
ghost use Rattle.responder_machine.specs.History.{History};
ghost use Rattle.responder_machine.specs.Place.{clear_place};
ghost use Rattle.responder_machine.specs.Setup.{RspSetup};
ghost use Rattle.spdm_grammar.specs.Message.RequestMessage.{GetVersion};
ghost use Rattle.spdm_grammar.specs.Requests.{canonical_request};
ghost use Rattle.spdm_grammar.specs.Responses.{canonical_response};
ghost use Rattle.spdm_machine.specs.Bodies.{clear_body};
ghost use Rattle.capture_machine.specs.Rounds as rounds;
ghost use Rattle.capture_machine.specs.SessionTable.{Row};
ghost use Rattle.world_machine.specs.Setup.{Configuration};
ghost use Rattle.spdm_grammar.specs.declared.names.TheConstants.{MAX_SESSIONS};

use crate::Upon;
use crate::session_fetch::in_session::zeros;
use check_ends::Party;
use check_laws::{Round, SessionTable, answer_accepts, whole_answer_changes};
use responder_core::{Connection, FreeValues, Setup};
use session_keys::behind_type;
use spdm_basis::{Frame, OutOfMemory};
use spdm_grammar::Why;
use spdm_grammar::names::message_type::SPDM;

// VERSION in the clear: its version is 1.0, and its one entry is 1.2 (DSP0274).
const VERSION_ANSWER: [u8; 9] = [SPDM, 0x10, 0x04, 0, 0, 0, 1, 0, 0x12];

// Whether an answer is VERSION.
fn gives_version(answer: &[u8]) -> bool
    ensures { IsTrue result ↔ (clear_body (canonical_response version_answer) ≡ answer.now) }
{
    VERSION_ANSWER.as_slice() == answer
}

// The least values that a responder may choose in the clear.
pub(crate) fn least_values(connection: &Connection) -> FreeValues<'static>
    ensures least { 1 ≤ result.id }
    ensures most { result.id ≤ MAX_SESSIONS }
    ensures context { context_len connection.now ≤ length result.context.now }
    ensures free { (r : RspSetup) (h : History) → StandsFor connection.now r h
        → IsFree result (least_values h (clear_place h)) }
{
    FreeValues {
        id: connection.free_id(),
        context: zeros(connection.choice().hash.size()),
        exchange_opaque: &[],
        nonce: [0; 32],
        measured_opaque: &[],
        handle: 0,
        reply: &[],
        pad: &[],
    }
}

// GET_VERSION came with a tag.
fn take_version(connection: &mut Connection, setup: &Setup<'_>, tag: u8, message: &[u8])
    ensures { (r : RspSetup) (h : History) → IsSetUp setup.now r → StandsFor connection.old r h
        → message.now ≡ canonical_request GetVersion → IsAnew r h tag
        → StandsFor connection.new r (version_entry tag ∷ h) }
{
    let values = least_values(connection);
    let _ = connection.on_clear(setup, tag, message, &values, &mut Frame::new());
}

/// Handles a complete response of at most 4,161 bytes, next in order after this round, which is GET_VERSION, while a
/// large response is fetched in the clear: it is VERSION, after which nothing is fetched; or why it is refused.
pub(crate) fn ends_by_version(
    party: &mut Party,
    table: &mut SessionTable,
    setup: &Setup<'_>,
    round: &Round,
    answer: &[u8],
) -> Result<Result<Upon, Why>, OutOfMemory>
    ensures told { (w : Configuration) (q : ReqSetup) (older : List (List ℕ)) (rows : List Row)
        (f : Fetching) (route : RouteFields) (held : Held) (of : rounds.Round)
        → IsFetchingOf w q older f → length older < 2 ^ 64 - 2 → round.now ≡ f.kept.round
        → f.kept.round ≡ Some of
        → of.body ≡ clear_body (canonical_request GetVersion)
        → IsSetUp setup.now (responder_for w f.kept)
        → answered_why f.kept.round (Whole route answer.now) ≡ None
        → IsHeldIn party.old held w q f rows → StandsForRows table.old w (length older) rows
        → IfOk result (λ told. IsRepliedTo w q older rows f route answer.now told party.new
        (IsHeldIn party.new held w q) table.new) }
    ensures stays { IfOk result (λ told. (told ≡ Ok upon.Ended → ⊥) → table.new ≡ table.old) }
    ensures memory { OnErr result ⊥ }
{
    let body = round.body();
    if !gives_version(answer) {
        return Ok(Err(party.answerer.reply_why(&party.keys, body, answer)));
    }
    answer_accepts();
    whole_answer_changes();
    let tag = round.tag();
    take_version(
        &mut party.answerer.connection,
        setup,
        tag,
        behind_type(body),
    );
    let _ = party.asker.hears(tag, answer, false);
    let change = party.change(None, None, None);
    table.take(&mut party.places, party.number, &change)?;
    Ok(Ok(Upon::Ended))
}
