ghost use Rattle.spdm_grammar.specs.declared.names.TheConstants.{MAX_SESSIONS};

use spdm_grammar::names::{MAX_SESSIONS, SESSION_PLACES};

/// A mark for each RspSessionID from 1 to 4: since the newest request in the clear that was taken, a record came for
/// its session, or it was dropped.
#[derive(Drop)]
pub struct Marks {
    set: [bool; SESSION_PLACES],
}

impl Marks {
    ghost use Rattle.std.specs.Prelude.{◌≡◌, ◌≢◌, ◌≤◌, ◌∷◌, ℕ, List, [], true};
    ghost use Rattle.check_late_laws.specs.Late.Marking.{StandsFor, mark_of};
    ghost use Rattle.check_late_laws.specs.Late.Passed.{touched};
    ghost use Rattle.responder_machine.specs.History.{History};
    ghost use Rattle.responder_machine.specs.History.Entry.{Clear, Sealed, Dropped};
    ghost use Rattle.responder_machine.specs.Session.{id_in_record};
    ghost use Rattle.responder_machine.specs.Turn.{Turn, is_taken};
    ghost use Rattle.spdm_machine.specs.Keys.{Draw};

    /// The initial state, before any message.
    pub fn new() -> Marks
        ensures { StandsFor result [] }
    {
        Marks {
            set: [false, false, false, false],
        }
    }

    /// The same marks.
    pub fn copy(&self) -> Marks
        ensures { result ≡ self.now }
    {
        Marks { set: self.set }
    }

    // The session with this RspSessionID was touched.
    fn mark(&mut self, id: u16)
        ensures own { 1 ≤ id → id ≤ MAX_SESSIONS → mark_of self.new id ≡ true }
        ensures others { (i : ℕ) → i ≢ id → mark_of self.new i ≡ mark_of self.old i }
    {
        if id >= 1 && id <= MAX_SESSIONS as u16 {
            self.set[usize::from(id) - 1] = true;
        }
    }

    /// A record for the session with this RspSessionID was taken, or the session was dropped.
    pub fn touch(&mut self, id: u16)
        ensures record_came { (h : History) (tag : ℕ) (sealed : List ℕ) (t : Turn) (reply : List ℕ) (d : Draw)
            → id ≡ id_in_record sealed → StandsFor self.old h
            → StandsFor self.new (Sealed tag sealed t reply d ∷ h) }
        ensures dropped { (h : History) → StandsFor self.old h → StandsFor self.new (Dropped id ∷ h) }
    {
        self.mark(id);
    }

    /// A request in the clear was taken.
    pub fn clear(&mut self)
        ensures { (h : History) (tag : ℕ) (t : Turn) (d : Draw) → is_taken t ≡ true
            → StandsFor self.new (Clear tag t d ∷ h) }
    {
        self.set = [false, false, false, false];
    }

    // The mark with this RspSessionID; none where it is 0 or above 4.
    fn marked(&self, id: u16) -> bool
        ensures { result ≡ mark_of self.now id }
    {
        if id == 0 || id > MAX_SESSIONS as u16 {
            return false;
        }
        self.set[usize::from(id) - 1]
    }

    /// Whether the session with this RspSessionID from 1 to 4 was touched.
    pub fn is_touched(&self, id: u16) -> bool
        ensures { (h : History) → StandsFor self.now h → 1 ≤ id → id ≤ MAX_SESSIONS → result ≡ touched id h }
    {
        self.marked(id)
    }
}
