ghost use Rattle.std.specs.Prelude.{◌≡◌, ◌≤◌};
ghost use Rattle.responder_session.specs.Laws.{told_as};
ghost use Rattle.spdm_machine.specs.Sessions.{one_if};
ghost use Rattle.spdm_grammar.specs.declared.names.TheConstants.{MAX_APP_DATA_LEN, MAX_OPAQUE_LEN, MAX_PADDING, MAX_SESSIONS};
ghost use Rattle.secured_record.specs.declared.TheConstants.{MAX_RECORD_SIZE};

use crate::in_sessions::records::{record_id, replace_record, write_decrypt_error};
use crate::{EndedPlace, LiveSession, SessionSlot};
use measurements::Inventory;
use responder_session::{ResponseValues, RspAct, RspSession, RspTold, Work};
use spdm_basis::{OutOfMemory, RecordFrame, SessionId};
use spdm_grammar::names::request_code::GET_VERSION;
use spdm_grammar::names::{MAX_SESSIONS, SESSION_PLACES};
use spdm_grammar::{Heard, Phase, SessionView};
use std::alloc::Global;

/// The sessions of a connection: a slot for each RspSessionID from 1 to 4, and the last record of the one ended
/// session. A slot without a session is overwritten (`SessionSlot`). Allocates only when constructed (read, not proved).
#[derive(Drop)]
pub struct Sessions {
    pub(crate) slots: [SessionSlot; SESSION_PLACES],
    pub(crate) ended: EndedPlace,
}

// How the responder tells what a record of this session did.
fn heard_as(id: SessionId, act: RspAct) -> Heard
    ensures { result ≡ told_as id act }
{
    match act {
        RspAct::Answered(code) => Heard::Answered(code),
        RspAct::Data => Heard::Taken(id),
        RspAct::Refused(code) => Heard::Refused(code),
    }
}

// 1 where a test holds, and 0 where it does not.
fn one_if(holds: bool) -> u8
    ensures value { result ≡ one_if holds }
    ensures most { result ≤ 1 }
{
    if holds { 1 } else { 0 }
}

impl Sessions {
    ghost use Rattle.std.specs.Prelude.{◌≡◌, ◌≢◌, ◌≤◌, ◌<◌, ◌^◌, ◌-◌, ◌∷◌, [], None, Some, ℕ, List, IfOk, MatchOption, true, length};
    ghost use Rattle.responder_machine.specs.Answer.{Free};
    ghost use Rattle.responder_machine.specs.BoundLaws.{messages_of};
    ghost use Rattle.responder_machine.specs.History.{History, clear_turns, phase_of};
    ghost use Rattle.responder_machine.specs.History.Entry.{Clear, Dropped, Ticked};
    ghost use Rattle.responder_machine.specs.Heard.{heard_of};
    ghost use Rattle.responder_machine.specs.Place.{free_id, held_of};
    ghost use Rattle.responder_machine.specs.Responder.{after, on_clear};
    ghost use Rattle.responder_machine.specs.Turn.{Turn, takes};
    ghost use Rattle.responder_core.specs.ClearPart.{BeginsNone};
    ghost use Rattle.responder_core.specs.Beginning.{IsBeginningAt, held_part};
    ghost use Rattle.responder_machine.specs.LargeMessages.{next_handle};
    ghost use Rattle.responder_machine.specs.Session.{Events, after_tick, session_of, turns_of};
    ghost use Rattle.responder_session.specs.Data.{data_of};
    ghost use Rattle.responder_machine.specs.Setup.{RspSetup, inventory_of};
    ghost use Rattle.responder_session.specs.RequestEffects.{AreFree};
    ghost use Rattle.responder_session.specs.Updates.{HasEpochs};
    ghost use Rattle.spdm_grammar.specs.declared.names.request_code.TheConstants.{GET_VERSION};
    ghost use Rattle.spdm_grammar.specs.declared.told.heard.Heard.TheVariants as hearing;
    ghost use Rattle.spdm_machine.specs.Keys.{Draw};
    ghost use Rattle.responder_core.specs.LiveSession.{IsSlotOf, IsTakenIn};
    ghost use Rattle.responder_core.specs.Sessions.{IsAnswered, IsDelivered, IsViewOf, StandsFor, is_held_in, slot_of};
    ghost use Rattle.responder_core.specs.NoSessions.{HasNoSessions};
    ghost use Rattle.responder_core.specs.declared.in_sessions.live_session.LiveSession.{LiveSession};
    ghost use Rattle.responder_session.specs.Session.{IsEnded};

    /// No sessions.
    pub fn new(alloc: Global) -> Result<Sessions, OutOfMemory>
        ensures { (r : RspSetup) → IfOk result (λ sessions. StandsFor sessions r []) }
    {
        let first = SessionSlot::empty(alloc)?;
        let second = SessionSlot::empty(alloc)?;
        let third = SessionSlot::empty(alloc)?;
        let fourth = SessionSlot::empty(alloc)?;
        let ended = EndedPlace::none(alloc)?;
        Ok(Sessions {
            slots: [first, second, third, fourth],
            ended,
        })
    }

    // A record for the session with this RspSessionID; none where there is none.
    fn take(
        &mut self,
        id: u16,
        sealed: &[u8],
        inventory: &Inventory,
        free: &ResponseValues<'_>,
        work: &mut Work,
        out: &mut RecordFrame,
    ) -> Option<RspTold>
        requires nonce { length free.now.nonce.now ≡ 32 }
        requires opaque { length free.now.opaque.now ≤ MAX_OPAQUE_LEN }
        requires reply { length free.now.reply.now ≤ MAX_APP_DATA_LEN }
        requires pad { length free.now.pad.now ≤ MAX_PADDING }
        ensures taken { (r : RspSetup) (s : Events) (f : Free) → AreFree free.now f → HasEpochs s
            → inventory_of r ≡ inventory.now → IsSlotOf (slot_of self.old id) r s
            → IsTakenIn r s f sealed.now (slot_of self.new id) result out.new }
        ensures others { (i : ℕ) → i ≢ id → slot_of self.new i ≡ slot_of self.old i }
        ensures ended { self.new.ended ≡ self.old.ended }
    {
        if id == 0 || id > MAX_SESSIONS as u16 {
            return None;
        }
        let slot = &mut self.slots[usize::from(id) - 1];
        if !slot.is_there {
            return None;
        }
        Some(slot.live.take(sealed, inventory, free, work, out))
    }

    // Where END_SESSION ended the session with this RspSessionID, its last record and reply are kept apart, and its
    // slot is empty.
    fn settle(&mut self, id: u16, sealed: &[u8], reply: &[u8])
        requires reply { length reply.now ≤ MAX_RECORD_SIZE }
        ensures live { (r : RspSetup) (s : Events) → IsSlotOf (slot_of self.old id) r s
            → self.new ≡ self.old }
        ensures gone { (kept : LiveSession) (bytes : List ℕ) → slot_of self.old id ≡ Some kept
            → IsEnded kept.session bytes sealed.now reply.now → length sealed.now ≤ MAX_RECORD_SIZE
            → (slot_of self.new id ≡ None)
            × (self.new.ended ≡ Some (record { sealed = sealed.now; reply = reply.now })) }
        ensures others { (i : ℕ) → i ≢ id → slot_of self.new i ≡ slot_of self.old i }
    {
        if id == 0 || id > MAX_SESSIONS as u16 {
            return;
        }
        let index = usize::from(id) - 1;
        let is_ended = match self.slots[index].live() {
            Some(live) => live.is_ended(),
            None => false,
        };
        if is_ended {
            self.ended.keep(sealed, reply);
            self.slots[index].clear();
        }
    }

    // Ends the turn of a record of which this is told: what is sent is written.
    fn answer(&mut self, phase: Phase, told: RspTold, sealed: &[u8], out: &mut RecordFrame) -> Heard
        ensures { (r : RspSetup) (h : History) (tag : ℕ) (f : Free) (d : Draw)
            → phase ≡ phase_of (clear_turns h)
            → IsDelivered r h sealed.now f (Some told) self.old out.old
            → IsAnswered r h tag sealed.now f d result self.new out.new }
    {
        let id = record_id(sealed);
        match told {
            RspTold::Moved(act) => {
                self.settle(id.rsp, sealed, out.as_slice());
                heard_as(id, act)
            }
            RspTold::Same => Heard::Same,
            RspTold::Unopened(_) => {
                write_decrypt_error(phase, out);
                Heard::Unopened
            }
        }
    }

    /// Handles a record received in this phase of the connection; `free` are the values that its response may use. The
    /// response record, or ERROR DecryptError in the clear, overwrites `out`. The nonce has 32 bytes, the opaque data
    /// and the reply at most 1,024, and the padding at most 16.
    pub fn on_record(
        &mut self,
        phase: Phase,
        sealed: &[u8],
        inventory: &Inventory,
        free: &ResponseValues<'_>,
        work: &mut Work,
        out: &mut RecordFrame,
    ) -> Heard
        requires nonce { length free.now.nonce.now ≡ 32 }
        requires opaque { length free.now.opaque.now ≤ MAX_OPAQUE_LEN }
        requires reply { length free.now.reply.now ≤ MAX_APP_DATA_LEN }
        requires pad { length free.now.pad.now ≤ MAX_PADDING }
        ensures { (r : RspSetup) (h : History) (tag : ℕ) (f : Free) (d : Draw)
            → AreFree free.now f → messages_of h < 2 ^ 64 - 1 → inventory_of r ≡ inventory.now
            → phase ≡ phase_of (clear_turns h) → StandsFor self.old r h
            → IsAnswered r h tag sealed.now f d result self.new out.new }
    {
        if self.ended.is_repeat(sealed) {
            replace_record(out, self.ended.reply());
            return Heard::Same;
        }
        let id = record_id(sealed);
        match self.take(id.rsp, sealed, inventory, free, work, out) {
            Some(told) => self.answer(phase, told, sealed, out),
            None => {
                write_decrypt_error(phase, out);
                Heard::Unopened
            }
        }
    }

    // Advances the clock of the session with this RspSessionID.
    fn wait(&mut self, id: u16, seconds: u32)
        ensures own { (r : RspSetup) (s : Events) → IsSlotOf (slot_of self.old id) r s
            → IsSlotOf (slot_of self.new id) r (after_tick s seconds) }
        ensures others { (i : ℕ) → i ≢ id → slot_of self.new i ≡ slot_of self.old i }
        ensures ended { self.new.ended ≡ self.old.ended }
    {
        if id == 0 || id > MAX_SESSIONS as u16 {
            return;
        }
        self.slots[usize::from(id) - 1].wait(seconds);
    }

    /// Advances the clock: removes each established session that has waited for twice its HeartbeatPeriod, with its
    /// stored response (DSP0274, "HEARTBEAT"). A period of 0 disables the timeout.
    pub fn tick(&mut self, seconds: u32)
        ensures { (r : RspSetup) (h : History) → StandsFor self.old r h
            → StandsFor self.new r (Ticked seconds ∷ h) }
    {
        self.wait(1, seconds);
        self.wait(2, seconds);
        self.wait(3, seconds);
        self.wait(4, seconds);
    }

    /// Removes the session with this RspSessionID, as if it timed out without a trace in the capture.
    pub fn expire(&mut self, id: u16)
        ensures { (r : RspSetup) (h : History) → StandsFor self.old r h
            → StandsFor self.new r (Dropped id ∷ h) }
    {
        self.empty(id);
    }

    // Empties the slot with this RspSessionID.
    fn empty(&mut self, id: u16)
        ensures own { slot_of self.new id ≡ None }
        ensures others { (i : ℕ) → i ≢ id → slot_of self.new i ≡ slot_of self.old i }
        ensures ended { self.new.ended ≡ self.old.ended }
    {
        if id >= 1 && id <= MAX_SESSIONS as u16 {
            self.slots[usize::from(id) - 1].clear();
        }
    }

    // A session with this RspSessionID that is in its handshake is gone.
    pub(crate) fn leave(&mut self, id: u16)
        ensures own { (r : RspSetup) (s : Events) → IsSlotOf (slot_of self.old id) r s
            → IsSlotOf (slot_of self.new id) r (held_part s) }
        ensures others { (i : ℕ) → i ≢ id → slot_of self.new i ≡ slot_of self.old i }
        ensures ended { self.new.ended ≡ self.old.ended }
    {
        if id == 0 || id > MAX_SESSIONS as u16 {
            return;
        }
        let index = usize::from(id) - 1;
        let stays = match self.slots[index].live() {
            Some(live) => live.is_held(),
            None => true,
        };
        if !stays {
            self.slots[index].clear();
        }
    }

    /// Installs the session of an accepted PSK_EXCHANGE under this RspSessionID, from 1 to 4, with its complete
    /// PSK_EXCHANGE_RSP. Removes the session that is in its handshake, and the last record of an ended session.
    pub fn begin(&mut self, id: u16, session: RspSession, answer: &[u8])
        requires least { 1 ≤ id }
        requires most { id ≤ MAX_SESSIONS }
        ensures { (r : RspSetup) (h : History) (tag : ℕ) (t : Turn) (d : Draw)
            → IsBeginningAt r h t id session answer.now → StandsFor self.old r h
            → StandsFor self.new r (Clear tag t d ∷ h) }
    {
        self.leave(1);
        self.leave(2);
        self.leave(3);
        self.leave(4);
        self.ended.clear();
        self.put(id, LiveSession::begin(session, answer));
    }

    /// GET_VERSION was accepted: removes all sessions, and the last record of an ended one.
    pub fn clear(&mut self)
        ensures { (r : RspSetup) (h : History) (tag : ℕ) (t : Turn) (d : Draw)
            → takes GET_VERSION t ≡ true → StandsFor self.old r h
            → StandsFor self.new r (Clear tag t d ∷ h) }
    {
        self.empty(1);
        self.empty(2);
        self.empty(3);
        self.empty(4);
        self.ended.clear();
    }

    /// Overwrites each session, before the memory of the responder is given back.
    pub fn wipe(&mut self)
        ensures { HasNoSessions self.new }
    {
        self.empty(1);
        self.empty(2);
        self.empty(3);
        self.empty(4);
    }

    /// The clear request with this code was answered, and begins no session: GET_VERSION removes all sessions, and
    /// nothing else changes one.
    pub fn answered(&mut self, code: u8)
        ensures { (r : RspSetup) (h : History) (tag : ℕ) (m : List ℕ) (f : Free) (d : Draw)
            → hearing.Answered code ≡ heard_of (on_clear r h tag m f d)
            → BeginsNone (on_clear r h tag m f d) → StandsFor self.old r h
            → StandsFor self.new r (after h (on_clear r h tag m f d)) }
    {
        if code == GET_VERSION {
            self.clear();
        }
    }

    // Whether there is a session with this RspSessionID, past its handshake.
    fn is_held(&self, id: u16) -> bool
        ensures { (r : RspSetup) (s : Events) → IsSlotOf (slot_of self.now id) r s
            → result ≡ is_held_in s }
    {
        match self.session(id) {
            Some(live) => live.is_held(),
            None => false,
        }
    }

    // The session with this RspSessionID; `None` if there is none.
    pub(crate) fn session(&self, id: u16) -> Option<&LiveSession>
        ensures { MatchOption result (slot_of self.now id ≡ None)
            (λ live. slot_of self.now id ≡ Some live.now) }
    {
        if id == 0 || id > MAX_SESSIONS as u16 {
            return None;
        }
        self.slots[usize::from(id) - 1].live()
    }

    /// A view of the session with this RspSessionID; `None` if there is none. Requires fewer than 2^64 received
    /// messages.
    pub fn view(&self, id: u16) -> Option<SessionView>
        ensures { (r : RspSetup) (h : History) → StandsFor self.now r h → messages_of h < 2 ^ 64
            → IsViewOf result (session_of id h) }
    {
        match self.session(id) {
            Some(live) => live.session.view(),
            None => None,
        }
    }

    /// The application data that the session with this RspSessionID took last; empty before the first, and where there
    /// is no session.
    pub fn data(&self, id: u16) -> &[u8]
        ensures { (r : RspSetup) (h : History) → StandsFor self.now r h
            → result.now ≡ data_of (session_of id h) }
    {
        match self.session(id) {
            Some(live) => live.session.data(),
            None => &[],
        }
    }

    /// The handle that is given to the next large response of the session with this RspSessionID; 0 where there is
    /// none.
    pub fn next_handle(&self, id: u16) -> u8
        ensures { (r : RspSetup) (h : History) → StandsFor self.now r h
            → result ≡ next_handle (turns_of (session_of id h)) }
    {
        match self.session(id) {
            Some(live) => live.session.next_handle(),
            None => 0,
        }
    }

    /// The number of established sessions.
    pub fn held(&self) -> u8
        ensures value { (r : RspSetup) (h : History) → StandsFor self.now r h → held_of h ≡ result }
        ensures most { result ≤ 4 }
    {
        one_if(self.is_held(1))
            + one_if(self.is_held(2))
            + one_if(self.is_held(3))
            + one_if(self.is_held(4))
    }

    /// The least RspSessionID without an established session; 4 if all four have one.
    pub fn free_id(&self) -> u16
        ensures value { (r : RspSetup) (h : History) → StandsFor self.now r h → result ≡ free_id h }
        ensures least { 1 ≤ result }
        ensures most { result ≤ 4 }
    {
        if !self.is_held(1) {
            return 1;
        }
        if !self.is_held(2) {
            return 2;
        }
        if !self.is_held(3) {
            return 3;
        }
        4
    }

    // Puts a session into the slot with this RspSessionID.
    fn put(&mut self, id: u16, live: LiveSession)
        requires least { 1 ≤ id }
        requires most { id ≤ MAX_SESSIONS }
        ensures own { slot_of self.new id ≡ Some live }
        ensures others { (i : ℕ) → i ≢ id → slot_of self.new i ≡ slot_of self.old i }
        ensures ended { self.new.ended ≡ self.old.ended }
    {
        self.slots[usize::from(id) - 1].put(live);
    }
}
