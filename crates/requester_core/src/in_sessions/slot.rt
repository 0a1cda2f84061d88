ghost use Rattle.std.specs.Prelude.{◌≡◌, ◌≤◌, ◌<◌, ◌-◌, ◌^◌, ℕ, List, length};
ghost use Rattle.requester_core.specs.RecordOutcome.{IsStepped, settled, told_led};
ghost use Rattle.requester_core.specs.Slot.{IsResting};
ghost use Rattle.requester_core.specs.SlotSteps.{IsAskedOf};
ghost use Rattle.requester_core.specs.declared.in_sessions.slot.Slot.TheVariants as slot;
ghost use Rattle.psk_session.specs.AskLaws.{command_fault_of};
ghost use Rattle.psk_session.specs.Course as course;
ghost use Rattle.psk_session.specs.ReqSession.{IsAwaiting};
ghost use Rattle.requester_machine.specs.Message as message;
ghost use Rattle.requester_machine.specs.Session.{Steps, request_epoch, response_epoch, taken_of};
ghost use Rattle.spdm_grammar.specs.declared.names.TheConstants.{MAX_PADDING};
ghost use Rattle.secured_record.specs.declared.TheConstants.{MAX_RECORD_SIZE};

use crate::RecordOutcome;
use psk_session::{
    AskFault, FinishAnswer, Finishing, OpenFault, Opening, Reply, ReqSession, ResponseOutcome,
    SessionRequest, SessionTold,
};
use spdm_basis::{RecordFault, SessionId};
use spdm_grammar::{CommandFault, Event, Finished, SessionView};

/// The session of one ReqSessionID, as far as it has come.
#[derive(Drop)]
pub enum Slot {
    /// There is none.
    Empty,
    /// PSK_EXCHANGE_RSP is awaited.
    Opening(Opening),
    /// PSK_FINISH_RSP is awaited.
    Finishing(Finishing),
    /// It is open, or awaits an answer.
    Live(ReqSession),
}

// What is reported of an answer in this session.
fn event_of(id: SessionId, reply: Reply) -> Event
    ensures { result ≡ course.event_of id reply }
{
    match reply {
        Reply::Data => Event::Done(Finished::Answered(id)),
        Reply::Alive => Event::Done(Finished::Alive(id)),
        Reply::Updated => Event::Done(Finished::Updated(id)),
        Reply::Measured(number) => Event::Done(Finished::Measured(number)),
        Reply::Refused(code) => Event::Refused(code),
    }
}

// What is reported of a record in this session.
fn led_as(id: SessionId, told: ResponseOutcome) -> RecordOutcome
    ensures { result ≡ told_led id told }
{
    match told {
        ResponseOutcome::Answer(reply) => RecordOutcome::Rests(event_of(id, reply)),
        ResponseOutcome::Next => RecordOutcome::Sends,
        ResponseOutcome::Ended => RecordOutcome::Ends(Event::Done(Finished::Ended(id))),
        ResponseOutcome::Bad(fault) => RecordOutcome::Ends(Event::Lost(id, fault)),
        ResponseOutcome::Stay(fault) => RecordOutcome::Ignored(fault),
    }
}

// The fault of a command that asks this of a session.
fn fault_as(fault: AskFault) -> CommandFault
    ensures { result ≡ command_fault_of fault }
{
    match fault {
        AskFault::NotNegotiated => CommandFault::NotNegotiated,
        AskFault::KeySpent => CommandFault::KeySpent,
        AskFault::TooLong => CommandFault::TooLong,
    }
}

// A record for a session that awaits one.
fn step(session: &mut ReqSession, sealed: &[u8], pad: &[u8]) -> RecordOutcome
    requires { length pad.now ≤ MAX_PADDING }
    ensures { (psk : List ℕ) (s : Steps) (a : message.Ask) → IsAwaiting session.old psk s a
        → request_epoch s < 2 ^ 64 - 1 → taken_of s < 2 ^ 64
        → IsStepped psk s a sealed.now pad.now (settled result (slot.Live session.new)) result }
{
    if !session.is_awaiting() || session.request_epoch() == u64::MAX {
        return RecordOutcome::Ignored(RecordFault::KeySpent);
    }
    let id = session.view().id;
    led_as(id, session.take_with(sealed, pad))
}

impl Slot {
    ghost use Rattle.std.specs.Prelude.{◌≡◌, ◌≤◌, ◌<◌, ◌-◌, ◌^◌, [], ℕ, List, MatchOption, None, Some, length};
    ghost use Rattle.requester_core.specs.RecordOutcome.{IsStepped, settled};
    ghost use Rattle.requester_core.specs.Slot.{IsFinishingSlot, IsSlotOf, shown_of};
    ghost use Rattle.requester_core.specs.SlotSteps.{IsAcceptedBy, IsAskedOf};
    ghost use Rattle.requester_core.specs.Wiped.{IsWipedSlot};
    ghost use Rattle.requester_core.specs.declared.in_sessions.slot.Slot.TheVariants as slot;
    ghost use Rattle.psk_session.specs.Data.{data_of};
    ghost use Rattle.psk_session.specs.Opening.{started};
    ghost use Rattle.psk_session.specs.Told.{told_of};
    ghost use Rattle.psk_session.specs.Waiting.{IsNewest};
    ghost use Rattle.requester_machine.specs.Message as message;
    ghost use Rattle.requester_machine.specs.Order.{FitsWaits, IsOrdered, Waits, waiting_ask};
    ghost use Rattle.requester_machine.specs.Order.Waits.{Rests};
    ghost use Rattle.requester_machine.specs.Session.{Steps, is_live, request_epoch, response_epoch, taken_of};
    ghost use Rattle.transcript.specs.Transcripts.{Negotiation};

    /// Whether there is a session.
    pub fn is_live(&self) -> bool
        ensures { (psk : List ℕ) (s : Steps) → IsSlotOf self.now psk s → result ≡ is_live s }
    {
        !matches!(self, Slot::Empty)
    }

    /// Handles the response to PSK_EXCHANGE; PSK_FINISH has this padding.
    pub(crate) fn accept(&mut self, answer: &[u8], pad: &[u8]) -> Result<(), OpenFault>
        requires { length pad.now ≤ MAX_PADDING }
        ensures { (psk : List ℕ) (n : Negotiation) (exchange : List ℕ)
            → IsSlotOf self.old psk (started n exchange)
            → IsAcceptedBy psk n exchange answer.now pad.now self.new result }
    {
        match self {
            Slot::Opening(state) => match state.answered(answer, pad) {
                Ok(state) => {
                    self.wipe();
                    *self = Slot::Finishing(state);
                    Ok(())
                }
                Err(fault) => Err(fault),
            },
            _ => Err(OpenFault::Malformed(1)),
        }
    }

    /// Sends a request in the session.
    pub(crate) fn ask(&mut self, ask: SessionRequest<'_>, pad: &[u8]) -> Result<(), CommandFault>
        requires { length pad.now ≤ MAX_PADDING }
        ensures { (psk : List ℕ) (s : Steps) → IsSlotOf self.old psk s → FitsWaits Rests s
            → response_epoch s < 2 ^ 64 - 1
            → IsAskedOf psk s ask.entry pad.now self.new result }
    {
        match self {
            Slot::Live(session) => ask_of(session, ask, pad),
            Slot::Empty => Err(CommandFault::NoSuchSession),
            Slot::Opening(_) | Slot::Finishing(_) => Err(CommandFault::Busy),
        }
    }

    // A record for the session.
    pub(crate) fn take(&mut self, sealed: &[u8], pad: &[u8]) -> RecordOutcome
        requires { length pad.now ≤ MAX_PADDING }
        ensures { (psk : List ℕ) (s : Steps) (a : message.Ask) → IsSlotOf self.old psk s
            → waiting_ask s ≡ Some a → request_epoch s < 2 ^ 64 - 1 → taken_of s < 2 ^ 64
            → IsStepped psk s a sealed.now pad.now self.new result }
    {
        let led = self.answer(sealed, pad);
        self.settle(&led);
        led
    }

    // Empties the slot where the session is gone.
    fn settle(&mut self, led: &RecordOutcome)
        ensures { self.new ≡ settled led.now self.old }
    {
        if led.is_end() {
            self.clear();
        }
    }

    /// Empties the slot: what it holds is overwritten before.
    pub(crate) fn clear(&mut self)
        ensures { self.new ≡ slot.Empty }
    {
        self.wipe();
        *self = Slot::Empty;
    }

    /// Overwrites the keys and the plaintexts of the session in place. Not to be gone on with, but to be emptied.
    pub(crate) fn wipe(&mut self)
        ensures { IsWipedSlot self.new }
    {
        match self {
            Slot::Empty => {}
            Slot::Opening(state) => state.wipe(),
            Slot::Finishing(state) => state.wipe(),
            Slot::Live(session) => session.wipe(),
        }
    }

    // A record for the session, which stays in its slot.
    fn answer(&mut self, sealed: &[u8], pad: &[u8]) -> RecordOutcome
        requires { length pad.now ≤ MAX_PADDING }
        ensures { (psk : List ℕ) (s : Steps) (a : message.Ask) → IsSlotOf self.old psk s
            → waiting_ask s ≡ Some a → request_epoch s < 2 ^ 64 - 1 → taken_of s < 2 ^ 64
            → IsStepped psk s a sealed.now pad.now (settled result self.new) result }
    {
        match self {
            Slot::Live(session) => step(session, sealed, pad),
            Slot::Finishing(_) => self.finish(sealed),
            Slot::Opening(_) => RecordOutcome::Ignored(RecordFault::KeySpent),
            Slot::Empty => RecordOutcome::Ignored(RecordFault::KeySpent),
        }
    }

    // A record for a session that awaits PSK_FINISH_RSP.
    fn finish(&mut self, sealed: &[u8]) -> RecordOutcome
        ensures { (psk : List ℕ) (s : Steps) (a : message.Ask) (pad : List ℕ)
            → IsFinishingSlot self.old psk s → waiting_ask s ≡ Some a
            → IsStepped psk s a sealed.now pad (settled result self.new) result }
    {
        match self {
            Slot::Finishing(state) => {
                let id = state.view().id;
                match state.answered(sealed) {
                    FinishAnswer::Open(open) => {
                        *self = Slot::Live(open.into_session());
                        RecordOutcome::Rests(Event::Done(Finished::Opened(id)))
                    }
                    FinishAnswer::Bad(fault) => RecordOutcome::Ends(Event::Lost(id, fault)),
                    FinishAnswer::Stay(fault) => RecordOutcome::Ignored(fault),
                }
            }
            _ => RecordOutcome::Ignored(RecordFault::KeySpent),
        }
    }

    /// The record that awaits its answer; empty where there is none, as in a session at rest.
    pub fn record(&self) -> &[u8]
        ensures newest { (psk : List ℕ) (s : Steps) (a : message.Ask) → IsSlotOf self.now psk s
            → waiting_ask s ≡ Some a → IsNewest a result.now s }
        ensures rest { (psk : List ℕ) (s : Steps) → IsSlotOf self.now psk s
            → waiting_ask s ≡ None → result.now ≡ [] }
        ensures fits { length result.now ≤ MAX_RECORD_SIZE }
    {
        match self {
            Slot::Empty | Slot::Opening(_) => &[],
            Slot::Finishing(state) => state.again(),
            Slot::Live(session) => session.again(),
        }
    }

    /// The application data or the measurement record of the last answer; empty where it had none, and while an answer
    /// is awaited.
    pub fn data(&self) -> &[u8]
        ensures rest { (psk : List ℕ) (s : Steps) → IsSlotOf self.now psk s → waiting_ask s ≡ None
            → result.now ≡ data_of s }
        ensures asked { (psk : List ℕ) (s : Steps) (a : message.Ask) → IsSlotOf self.now psk s
            → waiting_ask s ≡ Some a → result.now ≡ [] }
    {
        match self {
            Slot::Empty | Slot::Opening(_) | Slot::Finishing(_) => &[],
            Slot::Live(session) => session.data(),
        }
    }

    /// What PSK_EXCHANGE_RSP told of the session, from then on.
    pub fn told(&self) -> Option<&SessionTold>
        ensures { (psk : List ℕ) (s : Steps) → IsSlotOf self.now psk s
            → MatchOption result (told_of s ≡ None) (λ told. told_of s ≡ Some told.now) }
    {
        match self {
            Slot::Empty | Slot::Opening(_) => None,
            Slot::Finishing(state) => Some(state.told()),
            Slot::Live(session) => Some(session.told()),
        }
    }

    /// A view of the session, from its PSK_EXCHANGE_RSP on.
    pub fn view(&self) -> Option<SessionView>
        ensures { (psk : List ℕ) (w : Waits) (s : Steps) → IsSlotOf self.now psk s → IsOrdered s
            → FitsWaits w s → taken_of s < 2 ^ 64 → result ≡ shown_of s }
    {
        match self {
            Slot::Empty | Slot::Opening(_) => None,
            Slot::Finishing(state) => Some(state.view()),
            Slot::Live(session) => Some(session.view()),
        }
    }
}

// Asks something of a session that is open.
fn ask_of(session: &mut ReqSession, ask: SessionRequest<'_>, pad: &[u8]) -> Result<(), CommandFault>
    requires { length pad.now ≤ MAX_PADDING }
    ensures { (psk : List ℕ) (s : Steps) → IsResting session.old psk s
        → response_epoch s < 2 ^ 64 - 1
        → IsAskedOf psk s ask.entry pad.now (slot.Live session.new) result }
{
    if !session.is_open() {
        return Err(CommandFault::Busy);
    }
    if session.response_epoch() == u64::MAX {
        return Err(CommandFault::KeySpent);
    }
    match session.ask(ask, pad) {
        Ok(()) => Ok(()),
        Err(fault) => Err(fault_as(fault)),
    }
}
