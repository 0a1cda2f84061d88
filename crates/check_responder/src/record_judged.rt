ghost use Rattle.spdm_grammar.specs.declared.names.TheConstants.{MAX_BODY_SIZE};

use crate::answer_keys::prepare_record;
use crate::prepared_request::PreparedRequest;
use crate::sealed_answers::whole_if;
use crate::{Given, JudgedResponder};
use responder_core::Setup;
use session_keys::{behind_type, byte_at};
use spdm_basis::RecordFrame;
use spdm_grammar::names::message_type::{SECURED, SPDM};

impl JudgedResponder {
    ghost use Rattle.std.specs.Prelude.{◌≡◌, ◌≤◌, ◌<◌, ◌-◌, ◌^◌, IfSome, ℕ, length};
    ghost use Rattle.responder_core.specs.Setup.{IsSetUp};
    ghost use Rattle.responder_machine.specs.BoundLaws.{messages_of};
    ghost use Rattle.responder_machine.specs.History.{History};
    ghost use Rattle.responder_machine.specs.Setup.{RspSetup};
    ghost use Rattle.spdm_machine.specs.Bodies.{record_body};
    ghost use Rattle.check_responder.specs.AnswerKeys.{IsComing};
    ghost use Rattle.check_responder.specs.JudgedResponder.{IsAnswerer};
    ghost use Rattle.check_responder.specs.RecordAnswers.{IsGivenTo, history_behind};

    /// What this body brings as the answer to a record of which this is known, by what it shows; None where it is
    /// wrong. `text` is scratch space. Requires fewer than 2^64 - 1 received messages. After an answer that is not
    /// right nothing is kept.
    pub(crate) fn answers_record_with(
        &mut self,
        setup: &Setup<'_>,
        request: &[u8],
        coming: &PreparedRequest,
        answer: &[u8],
        text: &mut RecordFrame,
    ) -> Option<Given>
        requires { length answer.now ≤ MAX_BODY_SIZE }
        ensures told { (r : RspSetup) (h : History) (tag : ℕ) → IsSetUp setup.now r
            → IsAnswerer self.old r h → messages_of h < 2 ^ 64 - 1
            → IsComing coming.now r h (record_body request.now)
            → IsGivenTo r h tag (record_body request.now) answer.now result }
        ensures stands { (r : RspSetup) (h : History) (tag : ℕ) → IsSetUp setup.now r
            → IsAnswerer self.old r h → messages_of h < 2 ^ 64 - 1
            → IsComing coming.now r h (record_body request.now)
            → IfSome result (λ given. IsAnswerer self.new r (history_behind r h tag
            (record_body request.now) answer.now given)) }
    {
        let kind = byte_at(answer, 0);
        if kind == SPDM {
            let closed = self.answers_closed(setup, request, behind_type(answer));
            return whole_if(closed);
        }
        if kind == SECURED {
            return self.answers_sealed(setup, request, coming, behind_type(answer), text);
        }
        None
    }

    /// The same, where nothing is known of the record yet.
    pub fn answers_record(
        &mut self,
        setup: &Setup<'_>,
        request: &[u8],
        answer: &[u8],
    ) -> Option<Given>
        requires { length answer.now ≤ MAX_BODY_SIZE }
        ensures told { (r : RspSetup) (h : History) (tag : ℕ) → IsSetUp setup.now r
            → IsAnswerer self.old r h → messages_of h < 2 ^ 64 - 1
            → IsGivenTo r h tag (record_body request.now) answer.now result }
        ensures stands { (r : RspSetup) (h : History) (tag : ℕ) → IsSetUp setup.now r
            → IsAnswerer self.old r h → messages_of h < 2 ^ 64 - 1
            → IfSome result (λ given. IsAnswerer self.new r (history_behind r h tag
            (record_body request.now) answer.now given)) }
    {
        let mut coming = PreparedRequest::new();
        let mut text = RecordFrame::new();
        prepare_record(&self.connection, request, &mut coming);
        self.answers_record_with(setup, request, &coming, answer, &mut text)
    }
}
