use crate::{Connection, LiveSession, Sessions};
use spdm_grammar::names::MAX_SESSIONS;

impl Sessions {
    ghost use Rattle.std.specs.Prelude.{◌≡◌, ◌≢◌, ℕ, None};
    ghost use Rattle.responder_core.specs.Sessions.{slot_of};

    // Takes the session with this RspSessionID out of its slot; `None` if there is none.
    fn take_out(&mut self, id: u16) -> Option<LiveSession>
        ensures taken { result ≡ slot_of self.old id }
        ensures own { slot_of self.new id ≡ None }
        ensures others { (i : ℕ) → i ≢ id → slot_of self.new i ≡ slot_of self.old i }
        ensures ended { self.new.ended ≡ self.old.ended }
    {
        if id == 0 || id > MAX_SESSIONS as u16 {
            return None;
        }
        self.slots[usize::from(id) - 1].take_out()
    }

    // Puts it back.
    fn put_back(&mut self, id: u16, session: Option<LiveSession>)
        ensures own { (before : Sessions) → session ≡ slot_of before id
            → slot_of self.new id ≡ slot_of before id }
        ensures others { (i : ℕ) → i ≢ id → slot_of self.new i ≡ slot_of self.old i }
        ensures ended { self.new.ended ≡ self.old.ended }
    {
        if id == 0 || id > MAX_SESSIONS as u16 {
            return;
        }
        self.slots[usize::from(id) - 1].put_back(session);
    }
}

// A session that is set aside for a while; used only by the checker.
impl Connection {
    ghost use Rattle.std.specs.Prelude.{◌≡◌, ◌∷◌, ℕ};
    ghost use Rattle.responder_core.specs.Connected.{StandsFor};
    ghost use Rattle.responder_core.specs.Trying.{IsAside};
    ghost use Rattle.responder_machine.specs.History.{History};
    ghost use Rattle.responder_machine.specs.History.Entry.{Dropped};
    ghost use Rattle.responder_machine.specs.Setup.{RspSetup};

    /// Sets the session with this RspSessionID aside, if there is one: what is left is as if it had been dropped
    /// without a trace.
    pub fn set_aside(&mut self, id: u16) -> Option<LiveSession>
        ensures stands { (r : RspSetup) (h : History) → StandsFor self.old r h
            → StandsFor self.new r (Dropped id ∷ h) }
        ensures aside { IsAside id self.old result self.new }
    {
        self.sessions.take_out(id)
    }

    /// Puts it back in its place.
    pub fn put_back(&mut self, id: u16, session: Option<LiveSession>)
        ensures { (before : Connection) (r : RspSetup) (h : History)
            → IsAside id before session self.old → StandsFor before r h → StandsFor self.new r h }
    {
        self.sessions.put_back(id, session);
    }
}
