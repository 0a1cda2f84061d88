ghost use Rattle.std.specs.Prelude.{◌≡◌};
ghost use Rattle.check_responder.specs.Given.{judged_of};
ghost use Rattle.spdm_grammar.specs.declared.names.TheConstants.{MAX_BODY_SIZE};

use crate::prepared_request::PreparedRequest;
use crate::{Given, Judged, JudgedResponder};
use check_laws::is_clear;
use responder_core::Setup;
use session_keys::behind_type;
use spdm_basis::RecordFrame;

// What is said of an answer to a record, by what it brings.
fn judged_of(given: Option<Given>) -> Judged
    ensures { result ≡ judged_of given }
{
    match given {
        Some(brought) => Judged::Given(brought),
        None => Judged::Refused,
    }
}

// An answer to a request, each in the clear or a record.
impl JudgedResponder {
    ghost use Rattle.std.specs.Prelude.{◌≡◌, ◌≤◌, ◌<◌, ◌-◌, ◌^◌, length, slice_index};
    ghost use Rattle.responder_core.specs.Setup.{IsSetUp};
    ghost use Rattle.responder_machine.specs.BoundLaws.{messages_of};
    ghost use Rattle.responder_machine.specs.Setup.{RspSetup};
    ghost use Rattle.check_responder.specs.AnswerKeys.{IsComing};
    ghost use Rattle.check_responder.specs.JudgedResponder.{IsAnswerer};
    ghost use Rattle.check_responder.specs.Given.{IsApartInClear, IsGiven};
    ghost use Rattle.capture_machine.specs.Capture.{IsBody};
    ghost use Rattle.capture_machine.specs.Rounds.{Dialogue, Round};

    // The same of a request in the clear: a record is never its answer.
    fn judges_reply(&mut self, setup: &Setup<'_>, tag: u8, body: &[u8], answer: &[u8]) -> Judged
        ensures { (r : RspSetup) (d : Dialogue) (round : Round) → IsSetUp setup.now r
            → IsAnswerer self.old r d.responder → messages_of d.responder < 2 ^ 64 - 1
            → round.tag ≡ tag → round.body ≡ body.now → slice_index body.now 0 ≡ 5
            → IsApartInClear r d round answer.now → IsGiven r d round answer.now result self.new }
    {
        if is_clear(answer) {
            return self.judges_in_clear(setup, tag, body, answer);
        }
        Judged::Refused
    }

    /// Judges a body as the answer to a request of which this is known, by what it shows. `text` is scratch space.
    /// Requires fewer than 2^64 - 1 received messages.
    pub fn judges_with(
        &mut self,
        setup: &Setup<'_>,
        tag: u8,
        body: &[u8],
        coming: &PreparedRequest,
        answer: &[u8],
        text: &mut RecordFrame,
    ) -> Judged
        requires { length answer.now ≤ MAX_BODY_SIZE }
        ensures { (r : RspSetup) (d : Dialogue) (round : Round) → IsSetUp setup.now r
            → IsAnswerer self.old r d.responder → messages_of d.responder < 2 ^ 64 - 1
            → round.tag ≡ tag → round.body ≡ body.now → IsBody body.now
            → IsApartInClear r d round answer.now → IsComing coming.now r d.responder body.now
            → IsGiven r d round answer.now result self.new }
    {
        if is_clear(body) {
            return self.judges_reply(setup, tag, body, answer);
        }
        let given = self.answers_record_with(setup, behind_type(body), coming, answer, text);
        judged_of(given)
    }

    /// The same, where nothing is known of the request yet.
    pub fn judges(&mut self, setup: &Setup<'_>, tag: u8, body: &[u8], answer: &[u8]) -> Judged
        requires { length answer.now ≤ MAX_BODY_SIZE }
        ensures { (r : RspSetup) (d : Dialogue) (round : Round) → IsSetUp setup.now r
            → IsAnswerer self.old r d.responder → messages_of d.responder < 2 ^ 64 - 1
            → round.tag ≡ tag → round.body ≡ body.now → IsBody body.now
            → IsApartInClear r d round answer.now → IsGiven r d round answer.now result self.new }
    {
        let mut coming = PreparedRequest::new();
        let mut text = RecordFrame::new();
        self.prepare(body, &mut coming);
        self.judges_with(setup, tag, body, &coming, answer, &mut text)
    }
}
