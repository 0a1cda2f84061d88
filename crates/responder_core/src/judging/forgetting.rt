use crate::{Connection, LiveSession, SessionSlot, Sessions};
use spdm_grammar::names::MAX_SESSIONS;

// A session without the MEASUREMENTS that went by LargeResponse last, though chunks of them may have been given.
impl LiveSession {
    ghost use Rattle.std.specs.Prelude.{◌≡◌, is_some, true};
    ghost use Rattle.responder_rules.specs.LargeAnswer.{last_takes};
    ghost use Rattle.responder_machine.specs.LargeMessages.{large_of};
    ghost use Rattle.responder_machine.specs.Session.{Events, turns_of};
    ghost use Rattle.responder_machine.specs.Setup.{RspSetup};
    ghost use Rattle.responder_session.specs.Pending.{IsUncounted, events_unseen};
    ghost use Rattle.spdm_grammar.specs.declared.names.request_code.TheConstants.{GET_MEASUREMENTS};
    ghost use Rattle.responder_core.specs.LiveSession.{StandsFor};

    fn forget(&mut self)
        ensures { (r : RspSetup) (s : Events) → is_some (large_of (turns_of s)) ≡ true
            → last_takes GET_MEASUREMENTS (turns_of s) ≡ true → StandsFor self.old r s
            → StandsFor self.new r (events_unseen s) }
    {
        self.session.forget_pending();
    }

    // Without the count of one that others came after.
    fn uncount(&mut self)
        ensures { (r : RspSetup) (s e : Events) → IsUncounted s e → StandsFor self.old r s
            → StandsFor self.new r e }
    {
        self.session.uncount();
    }
}

impl SessionSlot {
    ghost use Rattle.std.specs.Prelude.{◌≡◌, is_some, true};
    ghost use Rattle.responder_rules.specs.LargeAnswer.{last_takes};
    ghost use Rattle.responder_machine.specs.LargeMessages.{large_of};
    ghost use Rattle.responder_machine.specs.Session.{Events, turns_of};
    ghost use Rattle.responder_machine.specs.Setup.{RspSetup};
    ghost use Rattle.responder_session.specs.Pending.{IsUncounted, events_unseen};
    ghost use Rattle.spdm_grammar.specs.declared.names.request_code.TheConstants.{GET_MEASUREMENTS};
    ghost use Rattle.responder_core.specs.LiveSession.{IsSlotOf};

    fn forget(&mut self)
        ensures { (r : RspSetup) (s : Events) → is_some (large_of (turns_of s)) ≡ true
            → last_takes GET_MEASUREMENTS (turns_of s) ≡ true → IsSlotOf self.old r s
            → IsSlotOf self.new r (events_unseen s) }
    {
        if self.is_there {
            self.live.forget();
        }
    }

    // Without the count of one that others came after.
    fn uncount(&mut self)
        ensures { (r : RspSetup) (s e : Events) → IsUncounted s e → IsSlotOf self.old r s
            → IsSlotOf self.new r e }
    {
        if self.is_there {
            self.live.uncount();
        }
    }
}

impl Sessions {
    ghost use Rattle.std.specs.Prelude.{◌≡◌, ◌≢◌, ℕ, is_some, true};
    ghost use Rattle.responder_rules.specs.LargeAnswer.{last_takes};
    ghost use Rattle.responder_machine.specs.History.{History};
    ghost use Rattle.responder_machine.specs.LargeMessages.{large_of};
    ghost use Rattle.responder_machine.specs.Session.{Events, session_of, turns_of};
    ghost use Rattle.responder_machine.specs.Setup.{RspSetup};
    ghost use Rattle.responder_session.specs.Pending.{events_unseen};
    ghost use Rattle.spdm_grammar.specs.declared.names.request_code.TheConstants.{GET_MEASUREMENTS};
    ghost use Rattle.responder_core.specs.LiveSession.{IsSlotOf};
    ghost use Rattle.responder_session.specs.Pending as sessions;
    ghost use Rattle.responder_core.specs.Pending.{history_unseen};
    ghost use Rattle.responder_core.specs.Sessions.{StandsFor, slot_of};

    // The session with this RspSessionID.
    fn forget_at(&mut self, id: u16)
        ensures own { (r : RspSetup) (s : Events) → is_some (large_of (turns_of s)) ≡ true
            → last_takes GET_MEASUREMENTS (turns_of s) ≡ true → IsSlotOf (slot_of self.old id) r s
            → IsSlotOf (slot_of self.new id) r (events_unseen s) }
        ensures others { (i : ℕ) → i ≢ id → slot_of self.new i ≡ slot_of self.old i }
        ensures ended { self.new.ended ≡ self.old.ended }
    {
        if id == 0 || id > MAX_SESSIONS as u16 {
            return;
        }
        self.slots[usize::from(id) - 1].forget();
    }

    fn forget(&mut self, id: u16)
        ensures { (r : RspSetup) (h : History)
            → is_some (large_of (turns_of (session_of id h))) ≡ true
            → last_takes GET_MEASUREMENTS (turns_of (session_of id h)) ≡ true
            → StandsFor self.old r h → StandsFor self.new r (history_unseen id h) }
    {
        self.forget_at(id);
    }

    // The session with this RspSessionID.
    fn uncount_at(&mut self, id: u16)
        ensures own { (r : RspSetup) (s e : Events) → sessions.IsUncounted s e
            → IsSlotOf (slot_of self.old id) r s → IsSlotOf (slot_of self.new id) r e }
        ensures others { (i : ℕ) → i ≢ id → slot_of self.new i ≡ slot_of self.old i }
        ensures ended { self.new.ended ≡ self.old.ended }
    {
        if id == 0 || id > MAX_SESSIONS as u16 {
            return;
        }
        self.slots[usize::from(id) - 1].uncount();
    }
}

// A request whose large response was never seen; used only by the checker.
impl Connection {
    ghost use Rattle.std.specs.Prelude.{◌≡◌, is_some, true};
    ghost use Rattle.responder_rules.specs.LargeAnswer.{last_takes};
    ghost use Rattle.responder_machine.specs.History.{History};
    ghost use Rattle.responder_machine.specs.LargeMessages.{large_of};
    ghost use Rattle.responder_machine.specs.Session.{session_of, turns_of};
    ghost use Rattle.responder_machine.specs.Setup.{RspSetup};
    ghost use Rattle.responder_core.specs.Connected.{StandsFor};
    ghost use Rattle.responder_core.specs.Pending.{IsUncounted, history_unseen};
    ghost use Rattle.spdm_grammar.specs.declared.names.request_code.TheConstants.{GET_MEASUREMENTS};

    /// The last chunked MEASUREMENTS in the session with this RspSessionID were never seen, though chunks of them may
    /// have been sent: they are stored as empty, are not pending, and used no handle.
    pub fn forget_in(&mut self, id: u16)
        ensures { (r : RspSetup) (h : History)
            → is_some (large_of (turns_of (session_of id h))) ≡ true
            → last_takes GET_MEASUREMENTS (turns_of (session_of id h)) ≡ true
            → StandsFor self.old r h → StandsFor self.new r (history_unseen id h) }
    {
        self.sessions.forget(id);
    }

    /// A large response in the session with this RspSessionID was never seen, and later messages were received there:
    /// it used no handle.
    pub fn uncount_in(&mut self, id: u16)
        ensures { (r : RspSetup) (h k : History) → IsUncounted id h k → StandsFor self.old r h
            → StandsFor self.new r k }
    {
        self.sessions.uncount_at(id);
    }
}
