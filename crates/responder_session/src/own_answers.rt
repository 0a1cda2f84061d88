ghost use Rattle.std.specs.Prelude.{◌≡◌, ℕ, None, Some, Ok};
ghost use Rattle.responder_rules.specs.Place.{IsPlace, IsRead};
ghost use Rattle.responder_machine.specs.Answer.{Free, request_at};
ghost use Rattle.responder_machine.specs.Handling.{turn_of};
ghost use Rattle.responder_machine.specs.Place.{session_place};
ghost use Rattle.responder_machine.specs.Refusal.{refused_form};
ghost use Rattle.responder_machine.specs.Session.{Events, session_terms};
ghost use Rattle.responder_machine.specs.Setup.{RspSetup};
ghost use Rattle.responder_machine.specs.SizeLaws.{HasSizes};
ghost use Rattle.responder_machine.specs.Turn.{updates};
ghost use Rattle.spdm_grammar.specs.Message.RequestMessage.{KeyUpdate};
ghost use Rattle.spdm_grammar.specs.declared.names.TheConstants.{MAX_RECORDS};

use crate::judging::inner_refusal;
use crate::requests::{UPDATE_ALL_KEYS, fits_stage};
use crate::session::ended_fault;
use crate::{AnswerKey, RspSession};
use responder_rules::Place;
use secured_record::RecordFault;
use session_keys::{behind_type, byte_at};
use spdm_basis::RecordFrame;
use spdm_grammar::names::message_type::SPDM;
use spdm_grammar::{Request, Stage};

// Whether KEY_UPDATE with this operation, which came to a session, updates the keys of both directions.
fn updates_all(place: &Place, message: &[u8], op: u8) -> bool
    ensures { (r : RspSetup) (s : Events) (f : Free) (tag : ℕ)
        → HasSizes r (session_terms s).common → IsPlace place.now (session_place s)
        → refused_form r (session_place s) message.now ≡ None
        → request_at (session_place s) message.now ≡ Some (KeyUpdate op tag)
        → result ≡ updates 2 (turn_of r (session_place s) message.now f) }
{
    if op != UPDATE_ALL_KEYS {
        return false;
    }
    if place.lacks_flag(byte_at(message, 1)) {
        return false;
    }
    fits_stage(place.stage, op)
}

// Whether a request that came to a session does.
fn asks_all(place: &Place, message: &[u8], request: &Request<'_>) -> bool
    ensures { (r : RspSetup) (s : Events) (f : Free) → HasSizes r (session_terms s).common
        → IsPlace place.now (session_place s)
        → IsRead r (session_place s) message.now (Ok request.now)
        → result ≡ updates 2 (turn_of r (session_place s) message.now f) }
{
    match request {
        Request::KeyUpdate { op, tag: _ } => updates_all(place, message, *op),
        _ => false,
    }
}

impl RspSession {
    ghost use Rattle.std.specs.Prelude.{◌≡◌, ◌<◌, ℕ, List, None, Some, Err, is_none, false, bytes_eq, OnOk, MatchOption, MatchResult};
    ghost use Rattle.responder_machine.specs.Answer.{Free};
    ghost use Rattle.responder_machine.specs.Records.{ended_fault, opened, opening_fault};
    ghost use Rattle.responder_machine.specs.Responder.{repeats, session_turn};
    ghost use Rattle.responder_machine.specs.Session.{Events, last_of, response_next, session_terms, stage_of};
    ghost use Rattle.responder_machine.specs.Setup.{RspSetup};
    ghost use Rattle.responder_machine.specs.SizeLaws.{HasSizes};
    ghost use Rattle.responder_machine.specs.Turn.{updates};
    ghost use Rattle.responder_session.specs.OwnAnswers.{IsKeyOfNext, IsKeyOfReply, belongs_to};
    ghost use Rattle.responder_session.specs.Session.{IsEnded, StandsFor};
    ghost use Rattle.responder_session.specs.Took.{turn_in};
    ghost use Rattle.responder_session.specs.Updates.{HasEpochs};

    // The key of the next answer, whose number is left.
    fn present_key(&self) -> AnswerKey
        requires { self.now.kept.response_next < MAX_RECORDS }
        ensures { (psk : List ℕ) (s : Events) → StandsFor self.now psk s
            → IsKeyOfNext result psk s }
    {
        AnswerKey {
            key: self.kept.response.copied(),
            id: self.kept.id,
            number: self.kept.response_next.number() as u16,
        }
    }

    // Whether an inner message updates the keys of both directions in a stage.
    fn is_update_of_all(&self, stage: Stage, inner: &[u8]) -> bool
        ensures { (r : RspSetup) (s : Events) (f : Free) → HasSizes r (session_terms s).common
            → StandsFor self.now r.psk s → stage ≡ stage_of s
            → result ≡ updates 2 (session_turn r s inner.now f) }
    {
        if inner_refusal(stage, inner).is_some() {
            return false;
        }
        if byte_at(inner, 0) != SPDM {
            return false;
        }
        let place = self.place(stage);
        let message = behind_type(inner);
        match place.read(place.common.to_responder.transfer, message) {
            Ok(request) => asks_all(&place, message, &request),
            Err(_) => false,
        }
    }

    // The key of the answer to an inner message in a stage.
    fn reply_key(&self, stage: Stage, inner: &[u8]) -> AnswerKey
        requires { self.now.kept.response_next < MAX_RECORDS }
        ensures { (r : RspSetup) (s : Events) (f : Free) → HasSizes r (session_terms s).common
            → HasEpochs s → StandsFor self.now r.psk s → stage ≡ stage_of s
            → IsKeyOfReply result r.psk s (session_turn r s inner.now f) }
    {
        let key = self.present_key();
        if self.is_update_of_all(stage, inner) {
            key.next()
        } else {
            key
        }
    }

    /// Opens a record as the next one from the requester, and overwrites `inner` with its inner message. Nothing
    /// changes. The fault tells why it does not open.
    pub fn read_request(&self, sealed: &[u8], inner: &mut RecordFrame) -> Result<(), RecordFault>
        ensures fault { (psk : List ℕ) (s : Events) → StandsFor self.now psk s → MatchResult result
            (λ _. opening_fault psk s sealed.now ≡ None)
            (λ e. opening_fault psk s sealed.now ≡ Some e) }
        ensures inner { (psk : List ℕ) (s : Events) → StandsFor self.now psk s
            → OnOk result (inner.new ≡ opened psk s sealed.now) }
        ensures ended { (id old answer : List ℕ) → IsEnded self.now id old answer
            → result ≡ Err (ended_fault id sealed.now) }
    {
        match self.stage {
            Some(_) => self.kept.open(sealed, inner),
            None => Err(ended_fault(self.kept.id, sealed)),
        }
    }

    /// Whether a record repeats the last accepted one.
    pub fn repeats_last(&self, sealed: &[u8]) -> bool
        ensures live { (psk : List ℕ) (s : Events) → StandsFor self.now psk s
            → result ≡ repeats (last_of s) sealed.now }
        ensures ended { (id old answer : List ℕ) → IsEnded self.now id old answer
            → result ≡ bytes_eq old sealed.now }
    {
        self.kept.last.repeats(sealed)
    }

    /// Whether a record repeats the last accepted one, or opens as the next one from the requester. `inner` is scratch
    /// space.
    pub fn belongs(&self, sealed: &[u8], inner: &mut RecordFrame) -> bool
        ensures live { (psk : List ℕ) (s : Events) → StandsFor self.now psk s
            → result ≡ belongs_to psk s sealed.now }
        ensures ended { (id old answer : List ℕ) → IsEnded self.now id old answer
            → result ≡ bytes_eq old sealed.now }
    {
        self.repeats_last(sealed) || self.read_request(sealed, inner).is_ok()
    }

    /// The key of the next answer, if its request leaves the keys as they are. `None` where the session is ended, and
    /// where its key has sealed 65,536 records.
    pub fn next_answer_key(&self) -> Option<AnswerKey>
        ensures live { (psk : List ℕ) (s : Events) → StandsFor self.now psk s → MatchOption result
            (response_next s ≡ MAX_RECORDS)
            (λ key. (response_next s < MAX_RECORDS) × IsKeyOfNext key psk s) }
        ensures ended { (id old answer : List ℕ) → IsEnded self.now id old answer → result ≡ None }
    {
        if self.stage.is_none() || self.kept.response_next.is_spent() {
            return None;
        }
        Some(self.present_key())
    }

    /// The key of the answer to this record, which depends on no free value; its inner message then overwrites `inner`.
    /// `None` where the session is ended, and where the record does not open. Both epochs are below 2^64 - 1.
    pub fn answer_key(&self, request: &[u8], inner: &mut RecordFrame) -> Option<AnswerKey>
        ensures live { (r : RspSetup) (s : Events) (f : Free) → HasSizes r (session_terms s).common
            → HasEpochs s → StandsFor self.now r.psk s → MatchOption result
            (is_none (opening_fault r.psk s request.now) ≡ false)
            (λ key. (opening_fault r.psk s request.now ≡ None)
            × (inner.new ≡ opened r.psk s request.now)
            × IsKeyOfReply key r.psk s (turn_in r s f request.now)) }
        ensures ended { (id old answer : List ℕ) → IsEnded self.now id old answer → result ≡ None }
    {
        let stage = self.stage?;
        match self.kept.open(request, inner) {
            Ok(()) => Some(self.reply_key(stage, inner.as_slice())),
            Err(_) => None,
        }
    }
}
