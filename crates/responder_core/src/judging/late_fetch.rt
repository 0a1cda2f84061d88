use crate::{Connection, EndedRecord, LiveSession, SessionSlot, Sessions};
use spdm_grammar::names::MAX_SESSIONS;

// A session in which MEASUREMENTS that were never seen are pending again.
impl LiveSession {
    ghost use Rattle.std.specs.Prelude.{◌≤◌, ◌<◌, ◌+◌, length};
    ghost use Rattle.responder_machine.specs.Session.{Events, session_terms, turns_of};
    ghost use Rattle.responder_machine.specs.Setup.{RspSetup};
    ghost use Rattle.responder_session.specs.LateFetch.{IsNewestUnseen, events_pending};
    ghost use Rattle.spdm_grammar.specs.declared.names.TheConstants.{MAX_MESSAGE_SIZE};
    ghost use Rattle.responder_core.specs.LiveSession.{StandsFor};

    fn make_pending(&mut self, answer: &[u8], handle: u8)
        requires { length answer.now ≤ MAX_MESSAGE_SIZE }
        ensures { (r : RspSetup) (s : Events)
            → (session_terms s).common.to_requester.transfer < length answer.now + 16
            → IsNewestUnseen (turns_of s) → StandsFor self.old r s
            → StandsFor self.new r (events_pending answer.now handle s) }
    {
        self.session.make_pending(answer, handle);
    }
}

impl SessionSlot {
    ghost use Rattle.std.specs.Prelude.{◌≤◌, ◌<◌, ◌+◌, length};
    ghost use Rattle.responder_machine.specs.Session.{Events, session_terms, turns_of};
    ghost use Rattle.responder_machine.specs.Setup.{RspSetup};
    ghost use Rattle.responder_session.specs.LateFetch.{IsNewestUnseen, events_pending};
    ghost use Rattle.spdm_grammar.specs.declared.names.TheConstants.{MAX_MESSAGE_SIZE};
    ghost use Rattle.responder_core.specs.LiveSession.{IsSlotOf};

    fn make_pending(&mut self, answer: &[u8], handle: u8)
        requires { length answer.now ≤ MAX_MESSAGE_SIZE }
        ensures { (r : RspSetup) (s : Events)
            → (session_terms s).common.to_requester.transfer < length answer.now + 16
            → IsNewestUnseen (turns_of s) → IsSlotOf self.old r s
            → IsSlotOf self.new r (events_pending answer.now handle s) }
    {
        if self.is_there {
            self.live.make_pending(answer, handle);
        }
    }
}

impl Sessions {
    ghost use Rattle.std.specs.Prelude.{◌≡◌, ◌≢◌, ◌≤◌, ◌<◌, ◌+◌, ℕ, length};
    ghost use Rattle.responder_machine.specs.History.{History};
    ghost use Rattle.responder_machine.specs.Session.{Events, session_of, session_terms, turns_of};
    ghost use Rattle.responder_machine.specs.Setup.{RspSetup};
    ghost use Rattle.responder_session.specs.LateFetch.{IsNewestUnseen, events_pending};
    ghost use Rattle.spdm_grammar.specs.declared.names.TheConstants.{MAX_MESSAGE_SIZE};
    ghost use Rattle.responder_core.specs.LateFetch.{history_pending};
    ghost use Rattle.responder_core.specs.LiveSession.{IsSlotOf};
    ghost use Rattle.responder_core.specs.Sessions.{StandsFor, slot_of};

    // The session with this RspSessionID.
    fn make_at(&mut self, id: u16, answer: &[u8], handle: u8)
        requires { length answer.now ≤ MAX_MESSAGE_SIZE }
        ensures own { (r : RspSetup) (s : Events)
            → (session_terms s).common.to_requester.transfer < length answer.now + 16
            → IsNewestUnseen (turns_of s) → IsSlotOf (slot_of self.old id) r s
            → IsSlotOf (slot_of self.new id) r (events_pending answer.now handle s) }
        ensures others { (i : ℕ) → i ≢ id → slot_of self.new i ≡ slot_of self.old i }
        ensures ended { self.new.ended ≡ self.old.ended }
    {
        if id == 0 || id > MAX_SESSIONS as u16 {
            return;
        }
        self.slots[usize::from(id) - 1].make_pending(answer, handle);
    }

    fn make_pending(&mut self, id: u16, answer: &[u8], handle: u8)
        requires { length answer.now ≤ MAX_MESSAGE_SIZE }
        ensures { (r : RspSetup) (h : History)
            → (session_terms (session_of id h)).common.to_requester.transfer
            < length answer.now + 16 → IsNewestUnseen (turns_of (session_of id h))
            → StandsFor self.old r h
            → StandsFor self.new r (history_pending id answer.now handle h) }
    {
        self.make_at(id, answer, handle);
    }
}

// A large response whose first chunk is asked for late; used only by the checker.
impl Connection {
    ghost use Rattle.std.specs.Prelude.{◌≡◌, ◌≤◌, ◌<◌, ◌+◌, length};
    ghost use Rattle.responder_machine.specs.History.{History, ended_of};
    ghost use Rattle.responder_machine.specs.Session.{session_of, session_terms, turns_of};
    ghost use Rattle.responder_machine.specs.Setup.{RspSetup};
    ghost use Rattle.responder_session.specs.LateFetch.{IsNewestUnseen};
    ghost use Rattle.spdm_grammar.specs.declared.names.TheConstants.{MAX_MESSAGE_SIZE};
    ghost use Rattle.responder_core.specs.Connected.{StandsFor};
    ghost use Rattle.responder_core.specs.LateFetch.{history_pending, with_ended};

    /// A copy of the last record of the ended session.
    pub fn ended_record(&self) -> EndedRecord
        ensures { (r : RspSetup) (h : History) → StandsFor self.now r h → result ≡ ended_of h }
    {
        self.sessions.ended.copy()
    }

    /// Replaces the stored last record of the ended session, if any: a PSK_EXCHANGE that is handed in late discards it,
    /// and must not where it arrived before END_SESSION.
    pub fn put_ended(&mut self, last: EndedRecord)
        ensures { self.new ≡ with_ended self.old last }
    {
        self.sessions.ended.put(last);
    }

    /// The MEASUREMENTS in response to the newest record of the session with this RspSessionID were never seen, and are
    /// pending again: these bytes stand for them, to be sent in chunks under this handle, and no chunk was sent.
    /// `forget_in` undoes it.
    pub fn make_pending(&mut self, id: u16, answer: &[u8], handle: u8)
        requires { length answer.now ≤ MAX_MESSAGE_SIZE }
        ensures { (r : RspSetup) (h : History)
            → (session_terms (session_of id h)).common.to_requester.transfer
            < length answer.now + 16 → IsNewestUnseen (turns_of (session_of id h))
            → StandsFor self.old r h
            → StandsFor self.new r (history_pending id answer.now handle h) }
    {
        self.sessions.make_pending(id, answer, handle);
    }
}
