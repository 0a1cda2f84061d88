ghost use Rattle.std.specs.Prelude.{◌≡◌, take};

use crate::Sessions;
use psk_session::InnerPair;
use session_keys::same_bytes;
use spdm_basis::{RecordFault, RecordFrame};
use spdm_grammar::names::MAX_SESSIONS;

// The first four bytes, or all where there are fewer.
fn id_in_front(sealed: &[u8]) -> &[u8]
    ensures { result.now ≡ take 4 sealed.now }
{
    sealed.split_at(sealed.len().min(4)).0
}

// What a requester sealed itself; used only by the checker.
impl Sessions {
    ghost use Rattle.std.specs.Prelude.{◌≡◌, ◌≢◌, ◌≤◌, ◌<◌, ◌-◌, ◌^◌, ◌∷◌, ℕ, List, Some, false, length, true};
    ghost use Rattle.requester_core.specs.Owed.{AreRepadded, AreRetold, TookLast};
    ghost use Rattle.requester_machine.specs.Owed.{with_next};
    ghost use Rattle.requester_core.specs.OwnRecords.{IsSlotRepadded, OpensAs, OpensNamed, awaits_record, id_named};
    ghost use Rattle.requester_machine.specs.Named.{names, session_named};
    ghost use Rattle.requester_core.specs.Sessions.{StandsFor, slot_of};
    ghost use Rattle.requester_core.specs.Slot.{IsSlotOf};
    ghost use Rattle.psk_session.specs.Course.{with_asked};
    ghost use Rattle.psk_session.specs.OwnRecords.{IsOwnOpened};
    ghost use Rattle.requester_machine.specs.History.{History, asks_session, outstanding};
    ghost use Rattle.requester_machine.specs.History.Entry.{Told};
    ghost use Rattle.requester_machine.specs.Message as message;
    ghost use Rattle.requester_machine.specs.Message.{Sent};
    ghost use Rattle.requester_machine.specs.Message.Aim.{InSession};
    ghost use Rattle.requester_machine.specs.Session.{Steps, is_accepted, request_next, session_of};
    ghost use Rattle.requester_machine.specs.Setup.{ReqSetup};
    ghost use Rattle.spdm_machine.specs.Keys.{Draw};

    // Whether a record names the session with this ReqSessionID.
    fn names(&self, id: u16, sealed: &[u8]) -> bool
        ensures { (q : ReqSetup) (h : History) → StandsFor self.now q h → length h < 2 ^ 64 - 1
            → result ≡ names sealed.now (session_of id h) }
    {
        match self.view(id) {
            Some(view) => same_bytes(&view.id.bytes(), id_in_front(sealed)),
            None => false,
        }
    }

    /// The ReqSessionID of the session that a record names, the least.
    pub fn named(&self, sealed: &[u8]) -> Option<u16>
        ensures { (q : ReqSetup) (h : History) → StandsFor self.now q h → length h < 2 ^ 64 - 1
            → result ≡ id_named h sealed.now }
    {
        if self.names(1, sealed) {
            return Some(1);
        }
        if self.names(2, sealed) {
            return Some(2);
        }
        if self.names(3, sealed) {
            return Some(3);
        }
        if self.names(4, sealed) { Some(4) } else { None }
    }

    // Opens a record as the next one that the session with this ReqSessionID would send.
    fn open_next_at(&self, id: u16, sealed: &[u8], out: &mut RecordFrame) -> Result<(), RecordFault>
        ensures { (psk : List ℕ) (s : Steps) → IsSlotOf (slot_of self.now id) psk s
            → is_accepted s ≡ true → request_next s ≤ 65535
            → IsOwnOpened psk s sealed.now result out.new }
    {
        if id == 0 || id > MAX_SESSIONS as u16 {
            return Err(RecordFault::KeySpent);
        }
        self.slots[usize::from(id) - 1].get().open_next(sealed, out)
    }

    // Opens a record in place of the one that the session with this ReqSessionID sent last.
    fn open_last_at(&self, id: u16, sealed: &[u8], out: &mut RecordFrame) -> Result<(), RecordFault>
        ensures { (psk : List ℕ) (s : Steps) (a : message.Ask) (inner pad : List ℕ)
            → IsSlotOf (slot_of self.now id) psk (with_asked psk s a inner pad)
            → IsOwnOpened psk s sealed.now result out.new }
    {
        if id == 0 || id > MAX_SESSIONS as u16 {
            return Err(RecordFault::KeySpent);
        }
        self.slots[usize::from(id) - 1].get().open_last(sealed, out)
    }

    /// Whether a record opens as the next one of the session that it names; its inner message then overwrites `out`.
    /// Covers sequence numbers up to 65,535.
    pub fn open_next(&self, sealed: &[u8], out: &mut RecordFrame) -> bool
        ensures few { (q : ReqSetup) (h : History) → StandsFor self.now q h → length h < 2 ^ 64 - 1
            → request_next (session_named h sealed.now) ≤ 65535
            → OpensAs q.psk (session_named h sealed.now) sealed.now result out.new }
        ensures resting { (q : ReqSetup) (h : History) → StandsFor self.now q h
            → length h < 2 ^ 64 - 1 → awaits_record (outstanding h) ≡ false
            → OpensAs q.psk (session_named h sealed.now) sealed.now result out.new }
    {
        match self.named(sealed) {
            Some(id) => self.open_next_at(id, sealed, out).is_ok(),
            None => false,
        }
    }

    /// Same as `open_next`, but as if the outstanding record, which was sent in response to the last message, had not
    /// been.
    pub fn open_before(&self, sealed: &[u8], out: &mut RecordFrame) -> bool
        ensures { (q : ReqSetup) (bare : History) (sent : Sent) (id : ℕ) (ask : message.Ask)
            → TookLast bare id → sent.aim ≡ InSession id ask → length bare < 2 ^ 64 - 1
            → StandsFor self.now q (with_next (Some sent) bare)
            → OpensAs q.psk (session_named bare sealed.now) sealed.now result out.new }
    {
        match self.named(sealed) {
            Some(id) if id == self.id => self.open_last_at(id, sealed, out).is_ok(),
            Some(id) => self.open_next_at(id, sealed, out).is_ok(),
            None => false,
        }
    }

    /// Whether a record names the session whose record is outstanding, where that was sent by itself in response to the
    /// last message, and opens in its place; its inner message then overwrites `out`.
    pub fn open_owed(&self, sealed: &[u8], out: &mut RecordFrame) -> bool
        ensures { (q : ReqSetup) (bare : History) (sent : Sent) (id : ℕ) (ask : message.Ask)
            → TookLast bare id → sent.aim ≡ InSession id ask → length bare < 2 ^ 64 - 1
            → StandsFor self.now q (with_next (Some sent) bare)
            → OpensNamed q.psk (session_of id bare) sealed.now result out.new }
    {
        if !self.names(self.id, sealed) {
            return false;
        }
        self.open_last_at(self.id, sealed, out).is_ok()
    }

    // Takes bytes as the record that the session with this ReqSessionID sent last.
    fn take_padded_at(&mut self, id: u16, sealed: &[u8], pair: &mut InnerPair) -> bool
        ensures own { (psk : List ℕ) (s : Steps) (a : message.Ask) (inner pad : List ℕ)
            → IsSlotOf (slot_of self.old id) psk (with_asked psk s a inner pad)
            → IsSlotRepadded psk s a inner sealed.now (slot_of self.new id) result }
        ensures others { (i : ℕ) → i ≢ id → slot_of self.new i ≡ slot_of self.old i }
        ensures id { self.new.id ≡ self.old.id }
        ensures unchanged { result ≡ false → self.new ≡ self.old }
    {
        if id == 0 || id > MAX_SESSIONS as u16 {
            return false;
        }
        self.slots[usize::from(id) - 1]
            .get_mut()
            .take_padded(sealed, pair)
    }

    /// Takes bytes as the outstanding record, where that was sent by itself in response to the last message or by a
    /// command: whether they are that record with some padding of at most 16 bytes. Where they are not, nothing
    /// changes.
    pub fn take_padded(&mut self, sealed: &[u8], pair: &mut InnerPair) -> bool
        ensures repadded { (q : ReqSetup) (bare : History) (sent : Sent) (id : ℕ)
            (ask : message.Ask) → TookLast bare id → sent.aim ≡ InSession id ask
            → StandsFor self.old q (with_next (Some sent) bare)
            → AreRepadded q bare id sent sealed.now self.new result }
        ensures retold { (q : ReqSetup) (older : History) (command : message.Command) (d : Draw)
            (sent : Sent) (id : ℕ) (ask : message.Ask) → asks_session command ≡ true
            → sent.aim ≡ InSession id ask → StandsFor self.old q (Told command sent d ∷ older)
            → AreRetold q older command d id sent sealed.now self.new result }
        ensures unchanged { result ≡ false → self.new ≡ self.old }
    {
        self.take_padded_at(self.id, sealed, pair)
    }
}
