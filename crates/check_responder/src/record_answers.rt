ghost use Rattle.std.specs.Prelude.{◌≡◌, ◌≤◌, ◌<◌, ◌^◌, ◌↔◌, ◌||◌, true, ℕ, List, drop, length};
ghost use Rattle.responder_core.specs.Connected.{StandsFor};
ghost use Rattle.responder_core.specs.Free.{IsFree};
ghost use Rattle.responder_core.specs.Setup.{IsSetUp};
ghost use Rattle.responder_core.specs.Sessions.{body_by};
ghost use Rattle.responder_machine.specs.Answer.{Free, answer_bytes};
ghost use Rattle.responder_machine.specs.BoundLaws.{messages_of};
ghost use Rattle.responder_machine.specs.History.{History, ended_of};
ghost use Rattle.responder_machine.specs.May.{IsAllowed};
ghost use Rattle.responder_machine.specs.Place.{Place, place_terms};
ghost use Rattle.responder_machine.specs.Responder.{repeats};
ghost use Rattle.responder_machine.specs.Session.{id_in_record, last_of, session_of};
ghost use Rattle.responder_machine.specs.Setup.{RspSetup};
ghost use Rattle.responder_session.specs.RequestEffects.{AreFree};
ghost use Rattle.spdm_grammar.specs.declared.names.TheConstants.{MAX_APP_DATA_LEN, MAX_MESSAGE_SIZE, MAX_OPAQUE_LEN, MAX_PADDING};
ghost use Rattle.spdm_machine.specs.Bodies.{record_body};
ghost use Rattle.check_laws.specs.AnswersShown.{least_values};

use crate::JudgedResponder;
use crate::answer_length::is_too_long;
use crate::choosing::are_allowed;
use crate::clear_answers::values_are_bounded;
use crate::clear_values::{at_round, least_values};
use crate::record_values::text_values;
use responder_core::{Connection, FreeValues, Setup, record_id};
use responder_session::ResponseValues;
use session_keys::{SessionTerms, behind_type, same_bytes};
use spdm_grammar::names::{MAX_APP_DATA_LEN, MAX_PADDING};
use spdm_grammar::{HashAlg, Heard};

// Whether this record is sent, by what is told.
fn is_sent(heard: Heard, out: &[u8], sealed: &[u8]) -> bool
    ensures { (result ≡ true) ↔ (body_by heard out.now ≡ record_body sealed.now) }
{
    match heard {
        Heard::Unopened => false,
        _ => same_bytes(out, sealed),
    }
}

// The values as they are handed in for a record.
fn record_free<'a>(values: &'a FreeValues<'_>) -> ResponseValues<'a>
    ensures free { (f : Free) → IsFree values.now f → AreFree result f }
    ensures nonce { length result.nonce.now ≡ 32 }
    ensures opaque { length result.opaque.now ≤ MAX_OPAQUE_LEN }
    ensures reply { result.reply.now ≡ values.now.reply.now }
    ensures pad { result.pad.now ≡ values.now.pad.now }
{
    ResponseValues {
        nonce: &values.nonce,
        opaque: values.measured_opaque,
        handle: values.handle,
        reply: values.reply,
        pad: values.pad,
    }
}

/// The least values, as they are handed in for a record.
pub(crate) fn least_free() -> ResponseValues<'static>
    ensures free { (h : History) (p : Place) → AreFree result (least_values h p) }
    ensures nonce { length result.nonce.now ≡ 32 }
    ensures opaque { length result.opaque.now ≤ MAX_OPAQUE_LEN }
    ensures reply { length result.reply.now ≤ MAX_APP_DATA_LEN }
    ensures pad { length result.pad.now ≤ MAX_PADDING }
{
    ResponseValues {
        nonce: &[0; 32],
        opaque: &[],
        handle: 0,
        reply: &[],
        pad: &[],
    }
}

/// Whether a record is the last one of the ended session, or of the session that it names.
pub(crate) fn is_repeated(connection: &Connection, request: &[u8]) -> bool
    ensures { (r : RspSetup) (h : History) → StandsFor connection.now r h
        → result ≡ (repeats (ended_of h) request.now
        || repeats (last_of (session_of (id_in_record request.now) h)) request.now) }
{
    let ended = connection.repeats_ended(request);
    let last = connection.repeats_last(request);
    ended || last
}

// Whether these values may be chosen for the answer to an inner message, in a session that has this hash. Requires
// fewer than 2^64 received messages.
fn may_give(
    connection: &Connection,
    setup: &Setup<'_>,
    hash: HashAlg,
    inner: &[u8],
    values: &FreeValues<'_>,
) -> bool
    ensures reply { result ≡ true → length values.now.reply.now ≤ MAX_APP_DATA_LEN }
    ensures pad { result ≡ true → length values.now.pad.now ≤ MAX_PADDING }
    ensures told { (r : RspSetup) (h : History) (p : Place) (f : Free) → IsSetUp setup.now r
        → StandsFor connection.now r h → messages_of h < 2 ^ 64 → IsFree values.now f
        → (place_terms p).choice.hash ≡ hash
        → (result ≡ true) ↔ (IsAllowed h p f × (length (answer_bytes r p (drop 1 inner.now) f) ≤ MAX_MESSAGE_SIZE)) }
{
    values_are_bounded(values);
    if values.reply.len() > MAX_APP_DATA_LEN {
        return false;
    }
    if values.pad.len() > MAX_PADDING {
        return false;
    }
    let allowed = are_allowed(connection, hash, values);
    let long = is_too_long(setup, hash, behind_type(inner), values);
    allowed && !long
}

impl JudgedResponder {
    ghost use Rattle.std.specs.Prelude.{◌≡◌, ◌≤◌, ◌<◌, ◌-◌, ◌^◌, ◌↔◌, Some, true, ℕ, length};
    ghost use Rattle.responder_core.specs.Free.{IsFree};
    ghost use Rattle.responder_core.specs.Setup.{IsSetUp};
    ghost use Rattle.responder_machine.specs.Answer.{Free};
    ghost use Rattle.responder_machine.specs.BoundLaws.{messages_of};
    ghost use Rattle.responder_core.specs.SeenTerms.{AreTermsIn};
    ghost use Rattle.responder_machine.specs.History.{History};
    ghost use Rattle.responder_machine.specs.Place.{place_terms, session_place};
    ghost use Rattle.responder_machine.specs.Records.{opened};
    ghost use Rattle.responder_machine.specs.Responder.{after, body_of, on_record};
    ghost use Rattle.responder_machine.specs.Session.{id_in_record, is_live, session_of};
    ghost use Rattle.responder_machine.specs.Setup.{RspSetup};
    ghost use Rattle.responder_session.specs.RequestEffects.{AreFree};
    ghost use Rattle.spdm_machine.specs.Bodies.{record_body};
    ghost use Rattle.check_responder.specs.JudgedResponder.{IsAnswerer};
    ghost use Rattle.check_responder.specs.ShownBy.{IsRecordGiven, text_shown};
    ghost use Rattle.capture_machine.specs.Rounds.{no_draw};

    /// Whether the record that answers a record at these values is this one.
    pub(crate) fn sends(
        &mut self,
        setup: &Setup<'_>,
        request: &[u8],
        free: &ResponseValues<'_>,
        sealed: &[u8],
    ) -> bool
        requires nonce { length free.now.nonce.now ≡ 32 }
        requires opaque { length free.now.opaque.now ≤ MAX_OPAQUE_LEN }
        requires reply { length free.now.reply.now ≤ MAX_APP_DATA_LEN }
        requires pad { length free.now.pad.now ≤ MAX_PADDING }
        ensures told { (r : RspSetup) (h : History) (tag : ℕ) (f : Free) → IsSetUp setup.now r
            → IsAnswerer self.old r h → messages_of h < 2 ^ 64 - 1 → AreFree free.now f
            → (result ≡ true) ↔ (body_of (on_record r h tag request.now f no_draw)
            ≡ record_body sealed.now) }
        ensures stands { (r : RspSetup) (h : History) (tag : ℕ) (f : Free) → IsSetUp setup.now r
            → IsAnswerer self.old r h → messages_of h < 2 ^ 64 - 1 → AreFree free.now f
            → IsAnswerer self.new r (after h (on_record r h tag request.now f no_draw)) }
    {
        let heard = self
            .connection
            .on_record(setup, request, free, &mut self.work, &mut self.record);
        is_sent(heard, self.record.as_slice(), sealed)
    }

    // Whether a record with this inner message is answered by this one at these values, where its session has this
    // hash.
    fn gives(
        &mut self,
        setup: &Setup<'_>,
        hash: HashAlg,
        request: &[u8],
        inner: &[u8],
        values: &FreeValues<'_>,
        sealed: &[u8],
    ) -> bool
        ensures told { (r : RspSetup) (h : History) (tag : ℕ) (f : Free) → IsSetUp setup.now r
            → IsAnswerer self.old r h → messages_of h < 2 ^ 64 - 1 → IsFree values.now f
            → (place_terms (session_place (session_of (id_in_record request.now) h))).choice.hash ≡ hash
            → inner.now ≡ opened r.psk (session_of (id_in_record request.now) h) request.now
            → (result ≡ true) ↔ IsRecordGiven r h tag request.now f (record_body sealed.now) }
        ensures stands { (r : RspSetup) (h : History) (tag : ℕ) (f : Free) → IsSetUp setup.now r
            → IsAnswerer self.old r h → messages_of h < 2 ^ 64 - 1 → IsFree values.now f
            → result ≡ true → IsAnswerer self.new r (after h (on_record r h tag request.now f no_draw)) }
    {
        if !may_give(&self.connection, setup, hash, inner, values) {
            return false;
        }
        self.sends(setup, request, &record_free(values), sealed)
    }

    // The same at the values that the text of the answer shows, where its session stands under these terms.
    fn gives_under(
        &mut self,
        setup: &Setup<'_>,
        terms: SessionTerms,
        request: &[u8],
        inner: &[u8],
        text: &[u8],
        sealed: &[u8],
    ) -> bool
        ensures told { (r : RspSetup) (h : History) (tag : ℕ) → IsSetUp setup.now r
            → IsAnswerer self.old r h → messages_of h < 2 ^ 64 - 1
            → AreTermsIn (Some terms) (session_of (id_in_record request.now) h)
            → inner.now ≡ opened r.psk (session_of (id_in_record request.now) h) request.now
            → (result ≡ true) ↔ IsRecordGiven r h tag request.now
            (text_shown r h request.now inner.now text.now) (record_body sealed.now) }
        ensures stands { (r : RspSetup) (h : History) (tag : ℕ) → IsSetUp setup.now r
            → IsAnswerer self.old r h → messages_of h < 2 ^ 64 - 1
            → AreTermsIn (Some terms) (session_of (id_in_record request.now) h) → result ≡ true
            → IsAnswerer self.new r (after h (on_record r h tag request.now
            (text_shown r h request.now inner.now text.now) no_draw)) }
    {
        let hash = terms.choice.hash;
        let at = at_round(hash, terms.common.to_requester.transfer, 0);
        let least = least_values(&self.connection, hash);
        match text_values(setup, at, inner, least, text) {
            Some(values) => self.gives(setup, hash, request, inner, &values, sealed),
            None => false,
        }
    }

    /// Whether a record with this inner message, in a live session, is answered by this one at the values that its text
    /// shows.
    pub(crate) fn gives_shown(
        &mut self,
        setup: &Setup<'_>,
        request: &[u8],
        inner: &[u8],
        text: &[u8],
        sealed: &[u8],
    ) -> bool
        ensures told { (r : RspSetup) (h : History) (tag : ℕ) → IsSetUp setup.now r
            → IsAnswerer self.old r h → messages_of h < 2 ^ 64 - 1
            → is_live (session_of (id_in_record request.now) h) ≡ true
            → inner.now ≡ opened r.psk (session_of (id_in_record request.now) h) request.now
            → (result ≡ true) ↔ IsRecordGiven r h tag request.now
            (text_shown r h request.now inner.now text.now) (record_body sealed.now) }
        ensures stands { (r : RspSetup) (h : History) (tag : ℕ) → IsSetUp setup.now r
            → IsAnswerer self.old r h → messages_of h < 2 ^ 64 - 1
            → is_live (session_of (id_in_record request.now) h) ≡ true → result ≡ true
            → IsAnswerer self.new r (after h (on_record r h tag request.now
            (text_shown r h request.now inner.now text.now) no_draw)) }
    {
        match self.connection.session_terms(record_id(request).rsp) {
            Some(terms) => self.gives_under(setup, terms, request, inner, text, sealed),
            None => false,
        }
    }
}
