use crate::RspSession;

// A large response whose bytes come chunk by chunk; used only by the checker.
impl RspSession {
    ghost use Rattle.std.specs.Prelude.{◌≡◌, ◌≤◌, ◌<◌, ◌+◌, ℕ, List, is_some, length, true};
    ghost use Rattle.responder_rules.specs.LargeAnswer.{last_takes};
    ghost use Rattle.responder_machine.specs.LargeMessages.{large_of};
    ghost use Rattle.responder_machine.specs.Place.{session_place};
    ghost use Rattle.responder_machine.specs.Refusal.{has_pending};
    ghost use Rattle.responder_machine.specs.Session.{Events, session_terms, turns_of};
    ghost use Rattle.responder_machine.specs.Setup.{RspSetup};
    ghost use Rattle.responder_machine.specs.SizeLaws.{HasSizes};
    ghost use Rattle.spdm_grammar.specs.declared.names.TheConstants.{MAX_MESSAGE_SIZE};
    ghost use Rattle.spdm_grammar.specs.declared.names.request_code.TheConstants.{GET_MEASUREMENTS};
    ghost use Rattle.responder_session.specs.LateFetch.{IsNewestUnseen, events_pending};
    ghost use Rattle.responder_session.specs.Pending.{IsUncounted, events_unseen, events_with};
    ghost use Rattle.responder_session.specs.Session.{StandsFor};

    /// The MEASUREMENTS that are pending get these bytes, which are sent in chunks; as many chunks of them are given as
    /// were.
    pub fn set_pending_bytes(&mut self, answer: &[u8])
        requires { length answer.now ≤ MAX_MESSAGE_SIZE }
        ensures { (r : RspSetup) (s : Events) → HasSizes r (session_terms s).common
            → (session_terms s).common.to_requester.transfer < length answer.now + 16
            → has_pending (session_place s) ≡ true
            → last_takes GET_MEASUREMENTS (turns_of s) ≡ true → StandsFor self.old r.psk s
            → StandsFor self.new r.psk (events_with answer.now s) }
    {
        let transfer = self.kept.terms.common.to_requester.transfer;
        self.large.put(answer, transfer);
    }

    /// The MEASUREMENTS that went by LargeResponse last were never seen, though chunks of them may have been given:
    /// they are not pending, and took no handle.
    pub fn forget_pending(&mut self)
        ensures { (psk : List ℕ) (s : Events) → is_some (large_of (turns_of s)) ≡ true
            → last_takes GET_MEASUREMENTS (turns_of s) ≡ true → StandsFor self.old psk s
            → StandsFor self.new psk (events_unseen s) }
    {
        self.large.forget();
    }

    /// The MEASUREMENTS in response to the newest record were never seen, and are pending again: these bytes stand for
    /// them, to be sent in chunks under this handle, and no chunk was sent. `forget_pending` undoes it.
    pub fn make_pending(&mut self, answer: &[u8], handle: u8)
        requires { length answer.now ≤ MAX_MESSAGE_SIZE }
        ensures { (r : RspSetup) (s : Events) → HasSizes r (session_terms s).common
            → (session_terms s).common.to_requester.transfer < length answer.now + 16
            → IsNewestUnseen (turns_of s) → StandsFor self.old r.psk s
            → StandsFor self.new r.psk (events_pending answer.now handle s) }
    {
        let transfer = self.kept.terms.common.to_requester.transfer;
        self.large.begin(answer, transfer, handle);
    }

    /// A large response in the session was never seen, and later messages were received: it used no handle.
    pub fn uncount(&mut self)
        ensures { (psk : List ℕ) (s e : Events) → IsUncounted s e → StandsFor self.old psk s
            → StandsFor self.new psk e }
    {
        self.large.uncount();
    }
}
