ghost use Rattle.std.specs.Prelude.{◌≡◌};
ghost use Rattle.check_responder.specs.RecordAnswers.{given_shown, whole_if};
ghost use Rattle.check_responder.specs.ShownBy.{shows_last};
ghost use Rattle.secured_record.specs.declared.TheConstants.{MAX_RECORD_SIZE};

use crate::clear_answers::blocks_are_few;
use crate::judged_responder::{response_of, shows_large};
use crate::prepared_request::PreparedRequest;
use crate::record_answers::{is_repeated, least_free};
use crate::record_values::inner_part;
use crate::{Given, JudgedResponder};
use responder_core::Setup;
use responder_session::AnswerKey;
use secured_record::MIN_RECORD_SIZE;
use session_keys::{behind_type, byte_at};
use spdm_basis::RecordFrame;
use spdm_grammar::names::message_type::SPDM;
use spdm_grammar::names::response_code::CHUNK_RESPONSE;

// The mark of a last chunk.
const LAST_CHUNK: u8 = 1;

// Whether a response is CHUNK_RESPONSE with the last chunk.
fn shows_last(response: &[u8]) -> bool
    ensures { result ≡ shows_last response.now }
{
    byte_at(response, 1) == CHUNK_RESPONSE && byte_at(response, 2) == LAST_CHUNK
}

// What an answer brings that has this inner message.
fn given_shown(inner: &[u8]) -> Given
    ensures { result ≡ given_shown inner.now }
{
    let response = behind_type(inner);
    if byte_at(inner, 0) != SPDM {
        return Given::Whole;
    }
    if shows_large(response_of(response)) {
        return Given::Large;
    }
    if shows_last(response) {
        return Given::Last;
    }
    Given::Whole
}

/// What goes whole, or is not right.
pub(crate) fn whole_if(is: bool) -> Option<Given>
    ensures { result ≡ whole_if is }
{
    if is { Some(Given::Whole) } else { None }
}

impl JudgedResponder {
    ghost use Rattle.std.specs.Prelude.{◌≡◌, ◌≤◌, ◌<◌, ◌-◌, ◌^◌, ◌↔◌, IfSome, true, ℕ, length};
    ghost use Rattle.responder_core.specs.Setup.{IsSetUp};
    ghost use Rattle.responder_machine.specs.BoundLaws.{messages_of};
    ghost use Rattle.responder_machine.specs.History.{History};
    ghost use Rattle.responder_machine.specs.Records.{opened};
    ghost use Rattle.responder_machine.specs.Responder.{after, on_record};
    ghost use Rattle.responder_machine.specs.Session.{id_in_record, session_of};
    ghost use Rattle.responder_machine.specs.Setup.{RspSetup};
    ghost use Rattle.responder_session.specs.OwnAnswers.{IsKeyOfReply};
    ghost use Rattle.spdm_machine.specs.Bodies.{record_body};
    ghost use Rattle.check_responder.specs.AnswerKeys.{IsComing};
    ghost use Rattle.check_responder.specs.JudgedResponder.{IsAnswerer, history_shown};
    ghost use Rattle.check_laws.specs.AnswersShown.{record_values};
    ghost use Rattle.check_laws.specs.DropsShown.{IsShownAnswer};
    ghost use Rattle.check_responder.specs.RecordAnswers.{IsGivenTo, IsRecordBrought, history_behind};
    ghost use Rattle.check_responder.specs.ShownBy.{IsRepeated, IsTaken};
    ghost use Rattle.capture_machine.specs.Opening.{turn_in};
    ghost use Rattle.capture_machine.specs.Rounds.{no_draw};

    // What this record brings as the answer to one with this inner message that its session takes; its text is written
    // with the key of the answer, overwriting `text`.
    fn answers_taken(
        &mut self,
        setup: &Setup<'_>,
        request: &[u8],
        inner: &[u8],
        key: &AnswerKey,
        sealed: &[u8],
        text: &mut RecordFrame,
    ) -> Option<Given>
        requires { length sealed.now ≤ MAX_RECORD_SIZE }
        ensures told { (r : RspSetup) (h : History) (tag : ℕ) → IsSetUp setup.now r
            → IsAnswerer self.old r h → messages_of h < 2 ^ 64 - 1 → IsTaken r h request.now
            → inner.now ≡ opened r.psk (session_of (id_in_record request.now) h) request.now
            → IsKeyOfReply key.now r.psk (session_of (id_in_record request.now) h)
            (turn_in r (session_of (id_in_record request.now) h) request.now)
            → IsRecordBrought r h tag request.now (record_values r h request.now sealed.now)
            (record_body sealed.now) result }
        ensures stands { (r : RspSetup) (h : History) (tag : ℕ) → IsSetUp setup.now r
            → IsAnswerer self.old r h → messages_of h < 2 ^ 64 - 1 → IsTaken r h request.now
            → inner.now ≡ opened r.psk (session_of (id_in_record request.now) h) request.now
            → IsKeyOfReply key.now r.psk (session_of (id_in_record request.now) h)
            (turn_in r (session_of (id_in_record request.now) h) request.now)
            → IfSome result (λ given. IsAnswerer self.new r (after h (on_record r h tag request.now
            (record_values r h request.now sealed.now) no_draw))) }
    {
        if sealed.len() < MIN_RECORD_SIZE {
            return None;
        }
        key.text(sealed, text);
        if !self.gives_shown(setup, request, inner, text.as_slice(), sealed) {
            return None;
        }
        Some(given_shown(inner_part(text.as_slice())))
    }

    // Whether a record that came again is answered by this one.
    fn answers_repeated(&mut self, setup: &Setup<'_>, request: &[u8], sealed: &[u8]) -> bool
        ensures told { (r : RspSetup) (h : History) (tag : ℕ) → IsSetUp setup.now r
            → IsAnswerer self.old r h → messages_of h < 2 ^ 64 - 1 → IsRepeated h request.now
            → (result ≡ true) ↔ IsShownAnswer r h tag (record_body request.now)
            (record_body sealed.now) }
        ensures stands { (r : RspSetup) (h : History) (tag : ℕ) → IsSetUp setup.now r
            → IsAnswerer self.old r h → messages_of h < 2 ^ 64 - 1 → IsRepeated h request.now
            → result ≡ true → IsAnswerer self.new r (history_shown r h tag
            (record_body request.now) (record_body sealed.now)) }
    {
        blocks_are_few(setup.inventory);
        self.sends(setup, request, &least_free(), sealed)
    }

    /// What this record brings as the answer to one of which this is known, by what it shows; None where it is wrong.
    /// `text` is scratch space. Requires fewer than 2^64 - 1 received messages. After an answer that is not right
    /// nothing is kept.
    pub(crate) fn answers_sealed(
        &mut self,
        setup: &Setup<'_>,
        request: &[u8],
        coming: &PreparedRequest,
        sealed: &[u8],
        text: &mut RecordFrame,
    ) -> Option<Given>
        requires { length sealed.now ≤ MAX_RECORD_SIZE }
        ensures told { (r : RspSetup) (h : History) (tag : ℕ) → IsSetUp setup.now r
            → IsAnswerer self.old r h → messages_of h < 2 ^ 64 - 1
            → IsComing coming.now r h (record_body request.now)
            → IsGivenTo r h tag (record_body request.now) (record_body sealed.now) result }
        ensures stands { (r : RspSetup) (h : History) (tag : ℕ) → IsSetUp setup.now r
            → IsAnswerer self.old r h → messages_of h < 2 ^ 64 - 1
            → IsComing coming.now r h (record_body request.now)
            → IfSome result (λ given. IsAnswerer self.new r (history_behind r h tag
            (record_body request.now) (record_body sealed.now) given)) }
    {
        if is_repeated(&self.connection, request) {
            let same = self.answers_repeated(setup, request, sealed);
            return whole_if(same);
        }
        match &coming.key {
            Some(key) => {
                let inner = coming.inner.as_slice();
                self.answers_taken(setup, request, inner, key, sealed, text)
            }
            None => None,
        }
    }
}
