ghost use Rattle.spdm_grammar.specs.declared.names.TheConstants.{MAX_PADDING};

use crate::Reply;
use crate::outcome::Outcome;
use crate::req_session::ReqSession;
use crate::requests::write_inner_request;
use crate::response_outcome::ResponseOutcome;
use crate::session_request::Awaited;
use crate::session_state::SessionState;
use chunking::Collector;
use spdm_grammar::Request;
use spdm_grammar::names::key_operation::VERIFY_NEW_KEY;

// What is done about a record that opened.
impl ReqSession {
    ghost use Rattle.std.specs.Prelude.{◌≡◌, ◌≤◌, ◌<◌, ◌+◌, ◌-◌, ◌^◌, ◌==◌, [], ℕ, List, Some, true, length};
    ghost use Rattle.chunking.specs.Collecting.{accepted_with, collected};
    ghost use Rattle.chunking.specs.Collecting.Collection.{More};
    ghost use Rattle.chunking.specs.Keeping as keeping;
    ghost use Rattle.requester_machine.specs.SpentLaws.{FewFor};
    ghost use Rattle.requester_machine.specs.Message as message;
    ghost use Rattle.requester_machine.specs.Message.Ask.{AskChunk, AskVerify};
    ghost use Rattle.requester_machine.specs.Order.{stage_for, waiting_ask};
    ghost use Rattle.requester_machine.specs.Sending.{inner_request, key_update};
    ghost use Rattle.requester_machine.specs.Session.{Steps, request_next, response_next, response_epoch, session_terms, stage_of};
    ghost use Rattle.requester_machine.specs.UnderWay.{AreUnderWay};
    ghost use Rattle.spdm_grammar.specs.Message.{ChunkMessage};
    ghost use Rattle.spdm_grammar.specs.Message.RequestMessage.{ChunkGet};
    ghost use Rattle.spdm_grammar.specs.declared.names.key_operation.TheConstants.{VERIFY_NEW_KEY};
    ghost use Rattle.spdm_grammar.specs.declared.told.phase.Stage.TheVariants as stages;
    ghost use Rattle.psk_session.specs.Course.{with_asked, with_taken};
    ghost use Rattle.psk_session.specs.Data.{data_in};
    ghost use Rattle.psk_session.specs.Held.{verdict_with};
    ghost use Rattle.psk_session.specs.Kept.{Keeps};
    ghost use Rattle.psk_session.specs.ReqSession.{IsAwaiting, IsOpen, is_awaiting, is_open};
    ghost use Rattle.psk_session.specs.Stepped.{Follows, IsStanding};
    ghost use Rattle.psk_session.specs.Verdict.{Fits, chunk_course, course_of, effect_of};
    ghost use Rattle.psk_session.specs.Waiting.{awaited_epoch};

    // Opens the session with a reply, whose data or measurement record were put down.
    fn answered(&mut self, reply: Reply)
        ensures opened { (psk : List ℕ) (s : Steps) (a : message.Ask) (sealed answer : List ℕ)
            (op : ℕ) → Keeps self.old.kept psk s (response_epoch s)
            → request_next s ≤ 65535 → response_next s ≤ 65534
            → stage_of (with_taken psk s a sealed (effect_of answer op reply)) ≡ stages.Open
            → data_in (effect_of answer op reply) ≡ self.old.brought
            → IsOpen self.new psk (with_taken psk s a sealed (effect_of answer op reply)) }
        ensures standing { is_open self.new.standing ≡ true }
    {
        self.kept.count(reply.is_data());
        self.standing = SessionState::Open;
    }

    // Asks by VerifyNewKey, which follows the answer to an update.
    fn verify(&mut self, pad: &[u8])
        requires { length pad.now ≤ MAX_PADDING }
        ensures asked { (psk : List ℕ) (s : Steps) → Keeps self.old.kept psk s (response_epoch s)
            → stage_of s ≡ stages.Verifying → request_next s ≤ 65535
            → FewFor AskVerify (request_next s + 1) (response_next s)
            → IsAwaiting self.new psk
            (with_asked psk s AskVerify (inner_request (key_update s VERIFY_NEW_KEY)) pad.now)
            AskVerify }
        ensures standing { is_awaiting self.new.standing ≡ true }
    {
        let request = Request::KeyUpdate {
            op: VERIFY_NEW_KEY,
            tag: self.kept.update_tag(),
        };
        write_inner_request(&request, &mut self.brought);
        self.send(Awaited::Verify, pad);
    }

    // Makes ready for a large response, of which no chunk was given.
    fn begin(&mut self)
        ensures max { self.new.gathered.max ≡ self.old.kept.terms.common.to_requester.max }
        ensures stands { keeping.StandsFor self.new.gathered [] }
        ensures same { self.new ≡ record self.old { gathered = self.new.gathered } }
    {
        self.gathered = Collector::new(self.kept.terms.common.to_requester.max);
    }

    // Asks for the chunk of this number of the large response to an operation, after what was gathered.
    fn fetch(&mut self, op: u8, handle: u8, number: u16, pad: &[u8])
        requires { length pad.now ≤ MAX_PADDING }
        ensures asked { (psk : List ℕ) (s : Steps) (before : List ChunkMessage)
            → Keeps self.old.kept psk s (response_epoch s) → stage_of s ≡ stages.Open
            → request_next s ≤ 65535
            → FewFor (AskChunk op handle number before) (request_next s + 1) (response_next s)
            → AreUnderWay (session_terms s).common.to_requester.max handle number before
            → keeping.StandsFor self.old.gathered before
            → self.old.gathered.max ≡ (session_terms s).common.to_requester.max
            → IsAwaiting self.new psk (with_asked psk s (AskChunk op handle number before)
            (inner_request (ChunkGet handle number)) pad.now) (AskChunk op handle number before) }
        ensures standing { is_awaiting self.new.standing ≡ true }
    {
        write_inner_request(&Request::ChunkGet { handle, number }, &mut self.brought);
        self.send(Awaited::Chunk { op, handle, number }, pad);
    }

    // What an outcome leads to.
    pub(crate) fn led(&mut self, outcome: Outcome, pad: &[u8]) -> ResponseOutcome
        requires epoch { self.old.kept.request.epoch < 2 ^ 64 - 1 }
        requires pad { length pad.now ≤ MAX_PADDING }
        ensures follows { (psk : List ℕ) (s : Steps) (a : message.Ask) (sealed answer : List ℕ)
            → Keeps self.old.kept psk s (awaited_epoch s a) → stage_of s ≡ stage_for a
            → waiting_ask s ≡ Some a → FewFor a (request_next s) (response_next s)
            → Fits s a answer (verdict_with outcome self.old.brought)
            → Follows psk s a sealed pad.now self.new result
            (course_of psk s a sealed answer (verdict_with outcome self.old.brought)) }
        ensures standing { IsStanding self.new result }
    {
        match outcome {
            Outcome::Bad(fault) => {
                self.standing = SessionState::Closed;
                ResponseOutcome::Bad(fault)
            }
            Outcome::Ended => {
                self.standing = SessionState::Closed;
                ResponseOutcome::Ended
            }
            Outcome::Answered(reply) => {
                self.answered(reply);
                ResponseOutcome::Answer(reply)
            }
            Outcome::Updated { all } => {
                self.kept.update(all);
                self.verify(pad);
                ResponseOutcome::Next
            }
            Outcome::Large { op, handle } => {
                self.kept.count(false);
                self.begin();
                self.fetch(op, handle, 0, pad);
                ResponseOutcome::Next
            }
        }
    }

    // Asks for the next chunk of a large response to an operation, after the one that has this number.
    pub(crate) fn go_on(&mut self, op: u8, handle: u8, number: u16, pad: &[u8]) -> ResponseOutcome
        requires { length pad.now ≤ MAX_PADDING }
        ensures follows { (psk : List ℕ) (s : Steps) (sealed : List ℕ) (at_handle at_number : ℕ)
            (before : List ChunkMessage) (c : ChunkMessage)
            → handle ≡ c.handle → number ≡ c.number
            → Keeps self.old.kept psk s (response_epoch s) → stage_of s ≡ stages.Open
            → waiting_ask s ≡ Some (AskChunk op at_handle at_number before)
            → FewFor (AskChunk op at_handle at_number before) (request_next s) (response_next s)
            → AreUnderWay (session_terms s).common.to_requester.max at_handle at_number before
            → keeping.StandsFor self.old.gathered
            (accepted_with (session_terms s).common.to_requester.max before c)
            → self.old.gathered.max ≡ (session_terms s).common.to_requester.max
            → (c.handle == at_handle) ≡ true → (c.number == at_number) ≡ true
            → More ≡ collected (session_terms s).common.to_requester.max before c
            → Follows psk s (AskChunk op at_handle at_number before) sealed pad.now self.new result
            (chunk_course psk s op at_handle at_number before sealed c More) }
        ensures standing { IsStanding self.new result }
    {
        self.kept.count(false);
        self.fetch(op, handle, number.saturating_add(1), pad);
        ResponseOutcome::Next
    }
}
