use crate::{Connection, LiveSession, SessionSlot, Sessions};
use spdm_grammar::names::MAX_SESSIONS;

impl LiveSession {
    ghost use Rattle.std.specs.Prelude.{◌≡◌, ◌≤◌, ◌<◌, ◌+◌, length, true};
    ghost use Rattle.responder_rules.specs.LargeAnswer.{last_takes};
    ghost use Rattle.responder_machine.specs.Place.{session_place};
    ghost use Rattle.responder_machine.specs.Refusal.{has_pending};
    ghost use Rattle.responder_machine.specs.Session.{Events, session_terms, turns_of};
    ghost use Rattle.responder_machine.specs.Setup.{RspSetup};
    ghost use Rattle.responder_session.specs.Pending.{events_with};
    ghost use Rattle.spdm_grammar.specs.declared.names.TheConstants.{MAX_MESSAGE_SIZE};
    ghost use Rattle.spdm_grammar.specs.declared.names.request_code.TheConstants.{GET_MEASUREMENTS};
    ghost use Rattle.responder_core.specs.LiveSession.{StandsFor};

    // The MEASUREMENTS that are pending get these bytes.
    fn set_pending_bytes(&mut self, answer: &[u8])
        requires { length answer.now ≤ MAX_MESSAGE_SIZE }
        ensures { (r : RspSetup) (s : Events)
            → (session_terms s).common.to_requester.transfer < length answer.now + 16
            → has_pending (session_place s) ≡ true
            → last_takes GET_MEASUREMENTS (turns_of s) ≡ true → StandsFor self.old r s
            → StandsFor self.new r (events_with answer.now s) }
    {
        self.session.set_pending_bytes(answer);
    }
}

impl SessionSlot {
    ghost use Rattle.std.specs.Prelude.{◌≡◌, ◌≤◌, ◌<◌, ◌+◌, length, true};
    ghost use Rattle.responder_rules.specs.LargeAnswer.{last_takes};
    ghost use Rattle.responder_machine.specs.Place.{session_place};
    ghost use Rattle.responder_machine.specs.Refusal.{has_pending};
    ghost use Rattle.responder_machine.specs.Session.{Events, session_terms, turns_of};
    ghost use Rattle.responder_machine.specs.Setup.{RspSetup};
    ghost use Rattle.responder_session.specs.Pending.{events_with};
    ghost use Rattle.spdm_grammar.specs.declared.names.TheConstants.{MAX_MESSAGE_SIZE};
    ghost use Rattle.spdm_grammar.specs.declared.names.request_code.TheConstants.{GET_MEASUREMENTS};
    ghost use Rattle.responder_core.specs.LiveSession.{IsSlotOf};

    // The MEASUREMENTS that are pending get these bytes.
    fn set_pending_bytes(&mut self, answer: &[u8])
        requires { length answer.now ≤ MAX_MESSAGE_SIZE }
        ensures { (r : RspSetup) (s : Events)
            → (session_terms s).common.to_requester.transfer < length answer.now + 16
            → has_pending (session_place s) ≡ true
            → last_takes GET_MEASUREMENTS (turns_of s) ≡ true → IsSlotOf self.old r s
            → IsSlotOf self.new r (events_with answer.now s) }
    {
        if self.is_there {
            self.live.set_pending_bytes(answer);
        }
    }
}

impl Sessions {
    ghost use Rattle.std.specs.Prelude.{◌≡◌, ◌≢◌, ◌≤◌, ◌<◌, ◌+◌, ℕ, length, true};
    ghost use Rattle.responder_rules.specs.LargeAnswer.{last_takes};
    ghost use Rattle.responder_machine.specs.History.{History};
    ghost use Rattle.responder_machine.specs.Place.{session_place};
    ghost use Rattle.responder_machine.specs.Refusal.{has_pending};
    ghost use Rattle.responder_machine.specs.Session.{Events, session_of, session_terms, turns_of};
    ghost use Rattle.responder_machine.specs.Setup.{RspSetup};
    ghost use Rattle.responder_session.specs.Pending.{events_with};
    ghost use Rattle.spdm_grammar.specs.declared.names.TheConstants.{MAX_MESSAGE_SIZE};
    ghost use Rattle.spdm_grammar.specs.declared.names.request_code.TheConstants.{GET_MEASUREMENTS};
    ghost use Rattle.responder_core.specs.LiveSession.{IsSlotOf};
    ghost use Rattle.responder_core.specs.Pending.{history_with};
    ghost use Rattle.responder_core.specs.Sessions.{StandsFor, slot_of};

    // The MEASUREMENTS that are pending in the session with this RspSessionID get these bytes.
    fn put_at(&mut self, id: u16, answer: &[u8])
        requires { length answer.now ≤ MAX_MESSAGE_SIZE }
        ensures own { (r : RspSetup) (s : Events)
            → (session_terms s).common.to_requester.transfer < length answer.now + 16
            → has_pending (session_place s) ≡ true
            → last_takes GET_MEASUREMENTS (turns_of s) ≡ true → IsSlotOf (slot_of self.old id) r s
            → IsSlotOf (slot_of self.new id) r (events_with answer.now s) }
        ensures others { (i : ℕ) → i ≢ id → slot_of self.new i ≡ slot_of self.old i }
        ensures ended { self.new.ended ≡ self.old.ended }
    {
        if id == 0 || id > MAX_SESSIONS as u16 {
            return;
        }
        self.slots[usize::from(id) - 1].set_pending_bytes(answer);
    }

    /// The MEASUREMENTS that are pending in the session with this RspSessionID get these bytes, which are sent in
    /// chunks; as many chunks of them are given as were.
    pub fn set_pending_bytes(&mut self, id: u16, answer: &[u8])
        requires { length answer.now ≤ MAX_MESSAGE_SIZE }
        ensures { (r : RspSetup) (h : History)
            → (session_terms (session_of id h)).common.to_requester.transfer
            < length answer.now + 16 → has_pending (session_place (session_of id h)) ≡ true
            → last_takes GET_MEASUREMENTS (turns_of (session_of id h)) ≡ true
            → StandsFor self.old r h → StandsFor self.new r (history_with id answer.now h) }
    {
        self.put_at(id, answer);
    }
}

// A large response in a session whose bytes come chunk by chunk; used only by the checker.
impl Connection {
    ghost use Rattle.std.specs.Prelude.{◌≡◌, ◌≤◌, ◌<◌, ◌+◌, length, true};
    ghost use Rattle.responder_rules.specs.LargeAnswer.{last_takes};
    ghost use Rattle.responder_machine.specs.History.{History};
    ghost use Rattle.responder_machine.specs.Place.{session_place};
    ghost use Rattle.responder_machine.specs.Refusal.{has_pending};
    ghost use Rattle.responder_machine.specs.Session.{session_of, session_terms, turns_of};
    ghost use Rattle.responder_machine.specs.Setup.{RspSetup};
    ghost use Rattle.spdm_grammar.specs.declared.names.TheConstants.{MAX_MESSAGE_SIZE};
    ghost use Rattle.spdm_grammar.specs.declared.names.request_code.TheConstants.{GET_MEASUREMENTS};
    ghost use Rattle.responder_core.specs.Connected.{StandsFor};
    ghost use Rattle.responder_core.specs.Pending.{history_with};

    /// The MEASUREMENTS that are pending in the session with this RspSessionID get these bytes, which are sent in
    /// chunks; as many chunks of them are given as were. They need not be as long as those before.
    pub fn set_pending_bytes(&mut self, id: u16, answer: &[u8])
        requires { length answer.now ≤ MAX_MESSAGE_SIZE }
        ensures { (r : RspSetup) (h : History)
            → (session_terms (session_of id h)).common.to_requester.transfer
            < length answer.now + 16 → has_pending (session_place (session_of id h)) ≡ true
            → last_takes GET_MEASUREMENTS (turns_of (session_of id h)) ≡ true
            → StandsFor self.old r h → StandsFor self.new r (history_with id answer.now h) }
    {
        self.sessions.set_pending_bytes(id, answer);
    }
}
