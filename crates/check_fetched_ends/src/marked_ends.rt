ghost use Rattle.std.specs.Prelude.{◌≡◌, ◌==◌, ℕ, List, Some, true, false, drop, slice_index, if◌then◌else◌};
ghost use Rattle.check_laws.specs.KeptChanges.{is_kept_record};
ghost use Rattle.check_laws.specs.Walks.{Walks};
ghost use Rattle.responder_core.specs.Connected as connected;
ghost use Rattle.check_fetched_ends.specs.JudgedEnds as judged;
ghost use Rattle.check_fetched_ends.specs.Marked.{is_taken_by, is_touched_by};
ghost use Rattle.check_fetched_ends.specs.declared.fetch.Fetch.TheVariants as fetch;
ghost use Rattle.check_fetched_ends.specs.declared.clear_fetch.held.Held.{Held};
ghost use Rattle.check_fetched_ends.specs.declared.session_fetch.in_session.InSession.{InSession};
ghost use Rattle.requester_machine.specs.Setup.{ReqSetup};
ghost use Rattle.responder_machine.specs.History.{History, kept_of};
ghost use Rattle.responder_machine.specs.Responder.{is_repeat};
ghost use Rattle.responder_machine.specs.Session.{id_in_record, is_live, session_of};
ghost use Rattle.responder_machine.specs.Setup.{RspSetup};
ghost use Rattle.capture_machine.specs.Rounds.{Dialogue};
ghost use Rattle.capture_machine.specs.SessionTable.{Row};
ghost use Rattle.world_machine.specs.Setup.{Configuration};
ghost use Rattle.spdm_grammar.specs.declared.names.message_type.TheConstants.{SPDM};

use crate::{Fetch, JudgedEnds};
use responder_core::{Connection, record_id};
use session_keys::{behind_type, byte_at};
use spdm_grammar::names::message_type::SPDM;

// Whether a message in the clear is a repeat while this large response is fetched.
fn repeats_fetched(large: &Fetch, connection: &Connection, tag: u8, message: &[u8]) -> bool
    ensures clear { (held : Held) → large.now ≡ fetch.InClear held
        → result ≡ is_repeat held.newest tag message.now }
    ensures session { (fetched : InSession) → large.now ≡ fetch.InSession fetched
        → (r : RspSetup) (h : History) → connected.StandsFor connection.now r h
        → result ≡ is_repeat (kept_of h) tag message.now }
{
    match large {
        Fetch::InClear(held) => held.newest.is_repeat(tag, message),
        Fetch::InSession(_) => connection.is_repeat(tag, message),
    }
}

// Whether a message in the clear is a repeat.
pub(crate) fn repeats_clear(ends: &JudgedEnds, tag: u8, message: &[u8]) -> bool
    ensures { (w : Configuration) (q : ReqSetup) (older : List (List ℕ)) (rows : List Row)
        (d : Dialogue) → judged.StandsFor ends.now w q older rows → Walks w q older d
        → result ≡ is_repeat (kept_of d.responder) tag message.now }
{
    let connection = &ends.talk.party.answerer.connection;
    match &ends.fetched {
        Some(large) => repeats_fetched(large, connection, tag, message),
        None => connection.is_repeat(tag, message),
    }
}

// Whether a record is a repeat, where no large response is fetched in the clear.
pub(crate) fn repeats_record(ends: &JudgedEnds, request: &[u8]) -> bool
    ensures { (w : Configuration) (q : ReqSetup) (older : List (List ℕ)) (rows : List Row)
        (d : Dialogue) → judged.StandsFor ends.now w q older rows → Walks w q older d
        → ((held : Held) → ends.now.fetched ≡ Some (fetch.InClear held) → ⊥)
        → result ≡ is_kept_record d.responder request.now }
{
    let connection = &ends.talk.party.answerer.connection;
    let ended = connection.repeats_ended(request);
    let last = connection.repeats_last(request);
    ended || last
}

// Whether the session of a record is live, where no large response is fetched in the clear.
pub(crate) fn is_live_in(ends: &JudgedEnds, request: &[u8]) -> bool
    ensures { (w : Configuration) (q : ReqSetup) (older : List (List ℕ)) (rows : List Row)
        (d : Dialogue) → judged.StandsFor ends.now w q older rows → Walks w q older d
        → ((held : Held) → ends.now.fetched ≡ Some (fetch.InClear held) → ⊥)
        → result ≡ is_live (session_of (id_in_record request.now) d.responder) }
{
    let connection = &ends.talk.party.answerer.connection;
    connection.session_terms(record_id(request).rsp).is_some()
}

/// Whether an answer that went on moves the marks, by what was told before it: whether the message in the clear was a
/// repeat; or whether the record was one, and whether its session was live.
pub(crate) fn moves_behind(
    ends: &JudgedEnds,
    tag: u8,
    body: &[u8],
    answer: &[u8],
    repeats: bool,
    kept: bool,
    live: bool,
) -> bool
    ensures { (w : Configuration) (q : ReqSetup) (older : List (List ℕ)) (rows : List Row)
        (d : Dialogue) (h : History) → judged.StandsFor ends.now w q older rows → Walks w q older d
        → ((slice_index body.now 0 == SPDM) ≡ true → repeats ≡ is_repeat (kept_of h) tag (drop 1 body.now))
        → ((slice_index body.now 0 == SPDM) ≡ false
        → (kept ≡ is_kept_record h (drop 1 body.now))
        × (live ≡ is_live (session_of (id_in_record (drop 1 body.now)) h))
        × ((held : Held) → ends.now.fetched ≡ Some (fetch.InClear held) → ⊥))
        → result ≡ (if slice_index body.now 0 == SPDM then is_taken_by h d.responder tag (drop 1 body.now)
        else is_touched_by h d.responder (drop 1 body.now) answer.now) }
{
    let message = behind_type(body);
    if byte_at(body, 0) == SPDM {
        if repeats {
            return false;
        }
        return repeats_clear(ends, tag, message);
    }
    if byte_at(answer, 0) == SPDM {
        if !live {
            return false;
        }
        return !is_live_in(ends, message);
    }
    !kept
}
