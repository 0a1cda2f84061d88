ghost use Rattle.std.specs.Prelude.{◌≡◌, ◌≤◌, ◌+◌, not, if◌then◌else◌};
ghost use Rattle.spdm_machine.specs.Sessions as sessions;
ghost use Rattle.spdm_grammar.specs.declared.names.TheConstants.{MAX_PADDING, MAX_SESSIONS};
ghost use Rattle.secured_record.specs.declared.TheConstants.{MAX_RECORD_SIZE};

use crate::{ClearState, RecordOutcome, Slot, SlotPlace};
use psk_session::{OpenFault, Opening, SessionRequest, SessionTerms, SessionTold};
use spdm_basis::{OutOfMemory, Psk, RecordFault};
use spdm_grammar::names::{MAX_SESSIONS, SESSION_PLACES};
use spdm_grammar::{CommandFault, ReqIgnored, SessionView};
use std::alloc::Global;

/// The sessions of a requester: a slot for each ReqSessionID from 1 to 4, and the ReqSessionID of the session that the
/// outstanding message begins or belongs to. Allocates only when constructed (read, not proved).
#[derive(Drop)]
pub struct Sessions {
    pub(crate) slots: [SlotPlace; SESSION_PLACES],
    pub(crate) id: u16,
}

// A session counts as one.
fn one_if(is_live: bool) -> u8
    ensures { result ≡ sessions.one_if is_live }
{
    if is_live { 1 } else { 0 }
}

// How many of four sessions are live.
fn count_of(first: bool, second: bool, third: bool, fourth: bool) -> u8
    ensures { result ≡ sessions.one_if first + sessions.one_if second + sessions.one_if third
        + sessions.one_if fourth }
{
    one_if(first) + one_if(second) + one_if(third) + one_if(fourth)
}

// The first of four ids that has no live session; the last where these three have.
fn least_free(first: bool, second: bool, third: bool) -> u16
    ensures value { result ≡ (if not first then 1 else (if not second then 2
        else (if not third then 3 else 4))) }
    ensures least { 1 ≤ result }
    ensures most { result ≤ 4 }
{
    if !first {
        return 1;
    }
    if !second {
        return 2;
    }
    if !third {
        return 3;
    }
    4
}

impl Sessions {
    ghost use Rattle.std.specs.Prelude.{◌≡◌, ◌≢◌, ◌≤◌, ◌<◌, ◌^◌, ◌-◌, ◌∷◌, [], MatchOption, None, Some, Bool, false, true, ℕ, List, IfOk, drop, length};
    ghost use Rattle.requester_core.specs.RecordOutcome.{IsStepped};
    ghost use Rattle.requester_core.specs.SessionSteps.{BringsExchange, IsBegunBy, IsRecordOf, IsRecorded, IsToldTo};
    ghost use Rattle.requester_core.specs.Sessions.{IsNamed, StandsFor, session_for, slot_of};
    ghost use Rattle.requester_core.specs.Slot.{IsSlotOf, shown_of};
    ghost use Rattle.requester_core.specs.SlotSteps.{IsAcceptedBy, IsAskedOf};
    ghost use Rattle.requester_core.specs.ClearState as clear_part;
    ghost use Rattle.requester_core.specs.Wiped.{IsWiped, IsWipedSlot};
    ghost use Rattle.requester_core.specs.declared.in_sessions.slot.Slot.TheVariants as slot;
    ghost use Rattle.psk_session.specs.AskLaws.{command_at};
    ghost use Rattle.psk_session.specs.Data.{data_of};
    ghost use Rattle.psk_session.specs.Opening.{started};
    ghost use Rattle.psk_session.specs.Told.{told_of};
    ghost use Rattle.psk_session.specs.Waiting.{IsNewest};
    ghost use Rattle.requester_machine.specs.Asking.{asks};
    ghost use Rattle.requester_machine.specs.Asking.Outcome.{Adds};
    ghost use Rattle.requester_machine.specs.Commands.{Free, is_negotiated, live_count};
    ghost use Rattle.requester_machine.specs.Does.{free_id};
    ghost use Rattle.requester_core.specs.Hearing.{ClosesSession};
    ghost use Rattle.requester_machine.specs.Hearing.{hears, on_record};
    ghost use Rattle.requester_machine.specs.History.{History, Led, outstanding, phase_of};
    ghost use Rattle.requester_machine.specs.History.Entry.{Told, TookClear};
    ghost use Rattle.requester_machine.specs.Message as message;
    ghost use Rattle.requester_machine.specs.Message.{Sent};
    ghost use Rattle.requester_machine.specs.Message.Aim.{InSession};
    ghost use Rattle.requester_machine.specs.Message.Command.{Connect, Open};
    ghost use Rattle.requester_machine.specs.Order.{FitsWaits, IsOrdered, Waits, waiting_ask};
    ghost use Rattle.requester_machine.specs.Order.Waits.{Rests};
    ghost use Rattle.requester_machine.specs.Session.{Steps, is_live, request_epoch, response_epoch, session_of, taken_of};
    ghost use Rattle.requester_machine.specs.Setup.{ReqSetup};
    ghost use Rattle.requester_machine.specs.UnderWay.{HasSizes};
    ghost use Rattle.spdm_grammar.specs.Message.{ExchangeMessage};
    ghost use Rattle.spdm_grammar.specs.Message.RequestMessage.{PskExchange};
    ghost use Rattle.spdm_machine.specs.Keys.{Draw};
    ghost use Rattle.transcript.specs.Transcripts.{Negotiation};

    /// No sessions.
    pub fn new(alloc: Global) -> Result<Sessions, OutOfMemory>
        ensures { (q : ReqSetup) → IfOk result (λ sessions. StandsFor sessions q []) }
    {
        let first = SlotPlace::empty(alloc)?;
        let second = SlotPlace::empty(alloc)?;
        let third = SlotPlace::empty(alloc)?;
        let fourth = SlotPlace::empty(alloc)?;
        Ok(Sessions {
            slots: [first, second, third, fourth],
            id: 0,
        })
    }

    /// Whether a session has this ReqSessionID.
    pub fn is_live(&self, id: u16) -> bool
        ensures { (q : ReqSetup) (h : History) → StandsFor self.now q h
            → result ≡ is_live (session_of id h) }
    {
        if id == 0 || id > MAX_SESSIONS as u16 {
            return false;
        }
        self.slots[usize::from(id) - 1].get().is_live()
    }

    /// How many sessions are live.
    pub fn count(&self) -> u8
        ensures { (q : ReqSetup) (h : History) → StandsFor self.now q h → result ≡ live_count h }
    {
        count_of(
            self.is_live(1),
            self.is_live(2),
            self.is_live(3),
            self.is_live(4),
        )
    }

    /// The least unused ReqSessionID; 4 if there is none.
    pub fn free_id(&self) -> u16
        ensures value { (q : ReqSetup) (h : History) → StandsFor self.now q h
            → result ≡ free_id h }
        ensures least { 1 ≤ result }
        ensures most { result ≤ 4 }
    {
        least_free(self.is_live(1), self.is_live(2), self.is_live(3))
    }

    /// GET_VERSION was sent: all sessions are gone.
    pub fn clear(&mut self)
        ensures { (q : ReqSetup) (h : History) (f : Free) (d : Draw) (sent : Sent)
            → asks false q h Connect f d ≡ Adds (Told Connect sent d)
            → StandsFor self.new q (Told Connect sent d ∷ h) }
    {
        self.empty(1);
        self.empty(2);
        self.empty(3);
        self.empty(4);
    }

    /// Overwrites the keys and the plaintexts of each session in place. Not to be gone on with, but to be cleared.
    pub(crate) fn wipe(&mut self)
        ensures { IsWiped self.new }
    {
        self.wipe_at(1);
        self.wipe_at(2);
        self.wipe_at(3);
        self.wipe_at(4);
    }

    // Overwrites what the slot with this ReqSessionID holds.
    fn wipe_at(&mut self, id: u16)
        ensures own { IsWipedSlot (slot_of self.new id) }
        ensures others { (i : ℕ) → i ≢ id → slot_of self.new i ≡ slot_of self.old i }
    {
        if id >= 1 && id <= MAX_SESSIONS as u16 {
            self.slots[usize::from(id) - 1].get_mut().wipe();
        }
    }

    // Sends a request in the session with this ReqSessionID, in a record with this padding of at most 16 bytes, while
    // nothing is outstanding and the phase is Negotiated.
    fn ask_at(&mut self, id: u16, ask: SessionRequest<'_>, pad: &[u8]) -> Result<(), CommandFault>
        requires pad { length pad.now ≤ MAX_PADDING }
        ensures own { (psk : List ℕ) (s : Steps) → IsSlotOf (slot_of self.old id) psk s
            → FitsWaits Rests s → response_epoch s < 2 ^ 64 - 1
            → IsAskedOf psk s ask.entry pad.now (slot_of self.new id) result }
        ensures others { (i : ℕ) → i ≢ id → slot_of self.new i ≡ slot_of self.old i }
        ensures id { self.new.id ≡ self.old.id }
    {
        if id == 0 || id > MAX_SESSIONS as u16 {
            return Err(CommandFault::NoSuchSession);
        }
        self.slots[usize::from(id) - 1].get_mut().ask(ask, pad)
    }

    /// Sends a request in the session with this ReqSessionID, in a record with this padding of at most 16 bytes, while
    /// nothing is outstanding and the phase is Negotiated.
    pub fn ask(&mut self, id: u16, ask: SessionRequest<'_>, pad: &[u8]) -> Result<(), CommandFault>
        requires pad { length pad.now ≤ MAX_PADDING }
        ensures { (q : ReqSetup) (h : History) (f : Free) (d : Draw) → f.pad ≡ pad.now
            → length h < 2 ^ 64 - 1 → outstanding h ≡ None → is_negotiated (phase_of h) ≡ true
            → StandsFor self.old q h
            → IsToldTo q h (command_at id ask.entry) f d result self.new }
    {
        match self.ask_at(id, ask, pad) {
            Ok(()) => {
                self.id = id;
                Ok(())
            }
            Err(fault) => Err(fault),
        }
    }

    // A record for the session with this ReqSessionID.
    fn step(&mut self, id: u16, sealed: &[u8], pad: &[u8]) -> RecordOutcome
        requires pad { length pad.now ≤ MAX_PADDING }
        ensures own { (psk : List ℕ) (s : Steps) (a : message.Ask)
            → IsSlotOf (slot_of self.old id) psk s → waiting_ask s ≡ Some a
            → request_epoch s < 2 ^ 64 - 1 → taken_of s < 2 ^ 64
            → IsStepped psk s a sealed.now pad.now (slot_of self.new id) result }
        ensures others { (i : ℕ) → i ≢ id → slot_of self.new i ≡ slot_of self.old i }
        ensures id { self.new.id ≡ self.old.id }
    {
        if id == 0 || id > MAX_SESSIONS as u16 {
            return RecordOutcome::Ignored(RecordFault::KeySpent);
        }
        self.slots[usize::from(id) - 1].get_mut().take(sealed, pad)
    }

    /// Handles a record while one of a session is outstanding. A further record that is sent has this padding, of at
    /// most 16 bytes.
    pub fn on_record(&mut self, sealed: &[u8], pad: &[u8]) -> RecordOutcome
        requires pad { length pad.now ≤ MAX_PADDING }
        ensures { (q : ReqSetup) (h : History) (f : Free) (tag : ℕ) (d : Draw) (sent : Sent)
            (id : ℕ) (ask : message.Ask) → HasSizes q → f.pad ≡ pad.now
            → length h < 2 ^ 64 - 1 → outstanding h ≡ Some sent → sent.aim ≡ InSession id ask
            → StandsFor self.old q h
            → IsRecorded q h (on_record q h f tag id ask sealed.now d) result self.new }
    {
        let id = self.id;
        self.step(id, sealed, pad)
    }

    /// The outstanding record.
    pub fn record(&self) -> &[u8]
        ensures bytes { (q : ReqSetup) (h : History) (sent : Sent) (id : ℕ) (ask : message.Ask)
            → outstanding h ≡ Some sent → sent.aim ≡ InSession id ask → StandsFor self.now q h
            → IsRecordOf result.now sent.content }
        ensures fits { length result.now ≤ MAX_RECORD_SIZE }
    {
        self.record_at(self.id)
    }

    // The record of the session with this ReqSessionID that awaits its answer.
    #[tactic(auto, using(crate::proofs::SlotLaws::empty_asks))]
    fn record_at(&self, id: u16) -> &[u8]
        ensures newest { (psk : List ℕ) (s : Steps) (a : message.Ask)
            → IsSlotOf (slot_of self.now id) psk s → waiting_ask s ≡ Some a
            → IsNewest a result.now s }
        ensures fits { length result.now ≤ MAX_RECORD_SIZE }
    {
        if id == 0 || id > MAX_SESSIONS as u16 {
            return &[];
        }
        self.slots[usize::from(id) - 1].get().record()
    }

    /// The ReqSessionID of the session that the outstanding message begins or asks something of.
    pub fn id(&self) -> u16
        ensures { (q : ReqSetup) (h : History) → StandsFor self.now q h
            → IsNamed (session_for (outstanding h)) result }
    {
        self.id
    }

    /// The application data or the measurement record that the session with this ReqSessionID was last brought, while
    /// nothing is asked of it; empty where the last answer had none.
    pub fn data(&self, id: u16) -> &[u8]
        ensures { (q : ReqSetup) (h : History) → StandsFor self.now q h
            → waiting_ask (session_of id h) ≡ None → result.now ≡ data_of (session_of id h) }
    {
        if id == 0 || id > MAX_SESSIONS as u16 {
            return &[];
        }
        self.slots[usize::from(id) - 1].get().data()
    }

    /// A view of the session with this ReqSessionID, from its PSK_EXCHANGE_RSP on.
    pub fn view(&self, id: u16) -> Option<SessionView>
        ensures { (q : ReqSetup) (h : History) → StandsFor self.now q h → length h < 2 ^ 64 - 1
            → result ≡ shown_of (session_of id h) }
    {
        self.view_at(id)
    }

    // The session with this ReqSessionID, in order, as it is shown.
    fn view_at(&self, id: u16) -> Option<SessionView>
        ensures { (psk : List ℕ) (w : Waits) (s : Steps) → IsSlotOf (slot_of self.now id) psk s
            → IsOrdered s → FitsWaits w s → taken_of s < 2 ^ 64 → result ≡ shown_of s }
    {
        if id == 0 || id > MAX_SESSIONS as u16 {
            return None;
        }
        self.slots[usize::from(id) - 1].get().view()
    }

    /// What PSK_EXCHANGE_RSP told of the session with this ReqSessionID.
    pub fn told(&self, id: u16) -> Option<&SessionTold>
        ensures { (q : ReqSetup) (h : History) → StandsFor self.now q h → MatchOption result
            (told_of (session_of id h) ≡ None)
            (λ told. told_of (session_of id h) ≡ Some told.now) }
    {
        self.told_at(id)
    }

    // What the session with this ReqSessionID was told.
    #[tactic(auto, using(crate::proofs::SlotTold::empty_told))]
    fn told_at(&self, id: u16) -> Option<&SessionTold>
        ensures { (psk : List ℕ) (s : Steps) → IsSlotOf (slot_of self.now id) psk s
            → MatchOption result (told_of s ≡ None) (λ told. told_of s ≡ Some told.now) }
    {
        if id == 0 || id > MAX_SESSIONS as u16 {
            return None;
        }
        self.slots[usize::from(id) - 1].get().told()
    }

    // Puts a session into the slot with this ReqSessionID.
    fn put(&mut self, id: u16, slot: Slot)
        requires least { 1 ≤ id }
        requires most { id ≤ MAX_SESSIONS }
        ensures own { slot_of self.new id ≡ slot }
        ensures others { (i : ℕ) → i ≢ id → slot_of self.new i ≡ slot_of self.old i }
        ensures id { self.new.id ≡ id }
    {
        self.slots[usize::from(id) - 1].put(slot);
        self.id = id;
    }

    /// PSK_EXCHANGE was sent, as the clear part holds it, with this ReqSessionID from 1 to 4 and this kind of
    /// measurement summary: its session begins, under this pre-shared key.
    pub fn open(&mut self, clear_state: &ClearState, psk: &Psk, id: u16, summary: u8)
        requires least { 1 ≤ id }
        requires most { id ≤ MAX_SESSIONS }
        ensures { (q : ReqSetup) (h : History) (f : Free) (d : Draw) (sent : Sent)
            → q.psk ≡ psk.now → f.id ≡ id
            → asks false q h (Open summary) f d ≡ Adds (Told (Open summary) sent d)
            → clear_part.StandsFor clear_state.now q (Told (Open summary) sent d ∷ h)
            → StandsFor self.old q h → StandsFor self.new q (Told (Open summary) sent d ∷ h) }
    {
        let terms = SessionTerms {
            choice: clear_state.choice(),
            common: *clear_state.common(),
            summary: summary != 0,
            req_id: id,
        };
        let state = Opening::start(
            clear_state.vca(),
            psk,
            clear_state.outgoing.request(),
            terms,
        );
        self.put(id, Slot::Opening(state));
    }

    // The answer to the PSK_EXCHANGE with this ReqSessionID.
    fn accept_at(&mut self, id: u16, answer: &[u8], pad: &[u8]) -> Result<(), OpenFault>
        requires pad { length pad.now ≤ MAX_PADDING }
        ensures own { (psk : List ℕ) (n : Negotiation) (exchange : List ℕ)
            → IsSlotOf (slot_of self.old id) psk (started n exchange)
            → IsAcceptedBy psk n exchange answer.now pad.now (slot_of self.new id) result }
        ensures others { (i : ℕ) → i ≢ id → slot_of self.new i ≡ slot_of self.old i }
        ensures id { self.new.id ≡ self.old.id }
    {
        if id == 0 || id > MAX_SESSIONS as u16 {
            return Err(OpenFault::Malformed(1));
        }
        self.slots[usize::from(id) - 1]
            .get_mut()
            .accept(answer, pad)
    }

    /// Handles the awaited PSK_EXCHANGE_RSP. If its verify data are right, PSK_FINISH is sent, in a record with this
    /// padding of at most 16 bytes.
    pub fn begin(&mut self, answer: &[u8], pad: &[u8]) -> Result<(), ReqIgnored>
        requires pad { length pad.now ≤ MAX_PADDING }
        ensures { (q : ReqSetup) (h : History) (f : Free) (tag : ℕ) (d : Draw) (sent : Sent)
            (m : List ℕ) (exchange : ExchangeMessage) → f.pad ≡ pad.now
            → BringsExchange q h sent m answer.now exchange → StandsFor self.old q h
            → IsBegunBy q h f tag d sent m answer.now exchange result self.new }
    {
        let id = self.id;
        match self.accept_at(id, answer, pad) {
            Ok(()) => Ok(()),
            Err(_) => Err(ReqIgnored::BadVerify),
        }
    }

    // Empties the slot with this ReqSessionID.
    fn empty(&mut self, id: u16)
        ensures own { slot_of self.new id ≡ slot.Empty }
        ensures others { (i : ℕ) → i ≢ id → slot_of self.new i ≡ slot_of self.old i }
        ensures id { self.new.id ≡ self.old.id }
    {
        if id >= 1 && id <= MAX_SESSIONS as u16 {
            self.slots[usize::from(id) - 1].get_mut().clear();
        }
    }

    /// PSK_EXCHANGE was refused with an ERROR: the session with this ReqSessionID is removed.
    pub fn close(&mut self, id: u16)
        ensures { (q : ReqSetup) (h : History) (f : Free) (owner : Bool) (tag : ℕ) (body : List ℕ)
            (d : Draw) (led : Led) → hears q h owner tag body f d
            ≡ Adds (TookClear tag (drop 1 body) led d)
            → ClosesSession id h (TookClear tag (drop 1 body) led d) → StandsFor self.old q h
            → StandsFor self.new q (TookClear tag (drop 1 body) led d ∷ h) }
    {
        self.empty(id);
    }
}
