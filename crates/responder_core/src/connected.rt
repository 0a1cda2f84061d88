ghost use Rattle.std.specs.Prelude.{◌≡◌};
ghost use Rattle.responder_core.specs.Connected.{queue_left, tells_measured};
ghost use Rattle.spdm_grammar.specs.declared.names.TheConstants.{MAX_APP_DATA_LEN, MAX_OPAQUE_LEN, MAX_PADDING, MAX_SESSIONS};

use crate::{
    ClearOutcome, ClearPlace, ExchangeOrigin, FreeValues, ReplyQueue, Sessions, Setup, record_id,
};
use responder_session::{QueueFault, ResponseValues, Work};
use spdm_basis::{Frame, OutOfMemory, RecordFrame};
use spdm_grammar::Heard;
use spdm_grammar::names::request_code::GET_MEASUREMENTS;
use std::alloc::Global;

/// A responder's connection with one requester (DSP0274, section 10), with every free value handed in: the clear part,
/// the sessions by RspSessionID, and the queue of application data to send in reply. Allocates only when constructed
/// (read, not proved).
#[derive(Drop)]
pub struct Connection {
    pub(crate) clear: ClearPlace,
    pub(crate) sessions: Sessions,
    pub(crate) queue: ReplyQueue,
    // Whether the last body used a draw.
    pub(crate) drawn: bool,
}

// Application data that was received takes the first reply off the queue.
fn use_up(queue: &mut ReplyQueue, heard: Heard)
    ensures { queue.new ≡ queue_left heard queue.old }
{
    if let Heard::Taken(_) = heard {
        queue.advance();
    }
}

// Whether the outcome of a record is an answered GET_MEASUREMENTS, which uses a draw.
fn tells_measured(heard: Heard) -> bool
    ensures { result ≡ tells_measured heard }
{
    match heard {
        Heard::Answered(code) => code == GET_MEASUREMENTS,
        _ => false,
    }
}

impl Connection {
    ghost use Rattle.std.specs.Prelude.{◌≡◌, ◌≤◌, ◌<◌, ◌^◌, ◌-◌, ◌∷◌, [], ℕ, List, None, Some, IfOk, MatchResult, length, replicate};
    ghost use Rattle.responder_machine.specs.Answer.{Free};
    ghost use Rattle.responder_machine.specs.BoundLaws.{messages_of};
    ghost use Rattle.responder_machine.specs.Does.{record_chosen, record_does};
    ghost use Rattle.responder_machine.specs.History.{History, queue_of};
    ghost use Rattle.responder_machine.specs.History.Entry.{Dropped, Queued, Ticked};
    ghost use Rattle.responder_machine.specs.May.{IsAllowed};
    ghost use Rattle.responder_machine.specs.Place.{clear_place};
    ghost use Rattle.responder_machine.specs.Responder.{on_clear, on_record};
    ghost use Rattle.responder_machine.specs.Setup.{RspSetup};
    ghost use Rattle.responder_session.specs.RequestEffects.{AreFree};
    ghost use Rattle.responder_session.specs.Queue.{queue_fault};
    ghost use Rattle.spdm_machine.specs.Bodies.{clear_body};
    ghost use Rattle.spdm_machine.specs.Keys.{Draw};
    ghost use Rattle.responder_core.specs.ClearPart.{IsBeginning, is_drawn};
    ghost use Rattle.responder_core.specs.Connected.{IsDone, StandsBeside, StandsFor, context_len};
    ghost use Rattle.responder_core.specs.Free.{IsFree};
    ghost use Rattle.responder_core.specs.Harmless.{IsClearHarmless, IsRecordHarmless};
    ghost use Rattle.responder_core.specs.Sessions.{body_by};
    ghost use Rattle.responder_core.specs.Setup.{IsSetUp};
    ghost use Rattle.responder_core.specs.NoSessions.{HasNoSessions};

    /// The initial state, before any message.
    pub fn new(alloc: Global, setup: &Setup<'_>) -> Result<Connection, OutOfMemory>
        ensures { (r : RspSetup) → IsSetUp setup.now r
            → IfOk result (λ connection. StandsFor connection r []) }
    {
        let clear = ClearPlace::new(alloc, setup)?;
        let sessions = Sessions::new(alloc)?;
        let queue = ReplyQueue::new(alloc)?;
        Ok(Connection {
            clear,
            sessions,
            queue,
            drawn: false,
        })
    }

    /// Overwrites each session and the application data that wait, before the memory of the responder is given back. Not
    /// to be gone on with.
    pub fn wipe(&mut self)
        ensures sessions { HasNoSessions self.new.sessions }
        ensures queue { self.new.queue ≡ replicate 16 (replicate MAX_APP_DATA_LEN 0) }
    {
        self.sessions.wipe();
        self.queue.wipe();
    }

    /// Handles a clear message with its tag; `free` are the values that its response may use. The response overwrites
    /// `out`. The id is from 1 to 4; the context is at least as long as the chosen hash. A refused or repeated message
    /// changes no session and nothing else.
    pub fn on_clear(
        &mut self,
        setup: &Setup<'_>,
        tag: u8,
        message: &[u8],
        free: &FreeValues<'_>,
        out: &mut Frame,
    ) -> Heard
        requires least { 1 ≤ free.now.id }
        requires most { free.now.id ≤ MAX_SESSIONS }
        requires context { context_len self.old ≤ length free.now.context.now }
        ensures done { (r : RspSetup) (h : History) (f : Free) (d : Draw) → IsSetUp setup.now r
            → IsFree free.now f → IsAllowed h (clear_place h) f → StandsFor self.old r h
            → IsDone r h (on_clear r h tag message.now f d) result (clear_body out.new) self.new }
        ensures drawn { (r : RspSetup) (h : History) (f : Free) (d : Draw) → IsSetUp setup.now r
            → IsFree free.now f → IsAllowed h (clear_place h) f → StandsFor self.old r h
            → self.new.drawn ≡ is_drawn (on_clear r h tag message.now f d) }
        ensures harmless { (r : RspSetup) (h : History) (f : Free) (d : Draw)
            → IsSetUp setup.now r → IsFree free.now f → IsAllowed h (clear_place h) f
            → StandsFor self.old r h
            → IsClearHarmless r h tag message.now f d result out.new }
    {
        let held = self.sessions.held();
        match self.clear.on_clear(setup, held, tag, message, free, out) {
            ClearOutcome::Same => {
                self.drawn = false;
                Heard::Same
            }
            ClearOutcome::Refused(code) => {
                self.drawn = false;
                Heard::Refused(code.number())
            }
            ClearOutcome::Answered { code, drawn } => {
                self.sessions.answered(code);
                self.drawn = drawn;
                Heard::Answered(code)
            }
            ClearOutcome::Begins(begun) => self.begin(begun, setup, tag, message, free, out),
        }
    }

    // Ends the turn of a clear message that begins a session.
    fn begin(
        &mut self,
        begun: ExchangeOrigin,
        setup: &Setup<'_>,
        tag: u8,
        message: &[u8],
        free: &FreeValues<'_>,
        out: &mut Frame,
    ) -> Heard
        requires least { 1 ≤ free.now.id }
        requires most { free.now.id ≤ MAX_SESSIONS }
        requires context { context_len self.old ≤ length free.now.context.now }
        ensures done { (r : RspSetup) (h : History) (f : Free) (d : Draw) → IsSetUp setup.now r
            → IsFree free.now f → IsAllowed h (clear_place h) f
            → IsBeginning r h tag message.now f begun self.old.clear → StandsBeside self.old r h
            → IsDone r h (on_clear r h tag message.now f d) result (clear_body out.new) self.new }
        ensures drawn { (r : RspSetup) (h : History) (f : Free) (d : Draw) → IsSetUp setup.now r
            → IsFree free.now f → IsAllowed h (clear_place h) f
            → IsBeginning r h tag message.now f begun self.old.clear → StandsBeside self.old r h
            → self.new.drawn ≡ is_drawn (on_clear r h tag message.now f d) }
    {
        let mut answer = Frame::new();
        let session = self.clear.start(begun, setup, message, free, &mut answer);
        let bytes = answer.as_slice();
        self.clear
            .begin(begun, tag, message, bytes, free.handle, out);
        self.sessions.begin(free.id, session, bytes);
        self.drawn = true;
        Heard::Answered(begun.code())
    }

    /// Handles a received record; `free` are the values that its response may use. The response record, or ERROR
    /// DecryptError in the clear, overwrites `out`. The nonce has 32 bytes, the opaque data and the reply at most
    /// 1,024, and the padding at most 16. Received application data takes the first reply off the queue.
    pub fn on_record(
        &mut self,
        setup: &Setup<'_>,
        sealed: &[u8],
        free: &ResponseValues<'_>,
        work: &mut Work,
        out: &mut RecordFrame,
    ) -> Heard
        requires nonce { length free.now.nonce.now ≡ 32 }
        requires opaque { length free.now.opaque.now ≤ MAX_OPAQUE_LEN }
        requires reply { length free.now.reply.now ≤ MAX_APP_DATA_LEN }
        requires pad { length free.now.pad.now ≤ MAX_PADDING }
        ensures done { (r : RspSetup) (h : History) (tag : ℕ) (f : Free) (d : Draw)
            → IsSetUp setup.now r → AreFree free.now f → messages_of h < 2 ^ 64 - 1
            → StandsFor self.old r h → IsDone r h (on_record r h tag sealed.now f d) result
            (body_by result out.new) self.new }
        ensures drawn { (r : RspSetup) (h : History) (tag : ℕ) (f : Free) (d : Draw)
            → IsSetUp setup.now r → AreFree free.now f → messages_of h < 2 ^ 64 - 1
            → StandsFor self.old r h
            → self.new.drawn ≡ is_drawn (on_record r h tag sealed.now f d) }
        ensures harmless { (r : RspSetup) (h : History) (tag : ℕ) (f : Free) (d : Draw)
            → IsSetUp setup.now r → AreFree free.now f → messages_of h < 2 ^ 64 - 1
            → StandsFor self.old r h
            → IsRecordHarmless r h tag sealed.now f d result out.new }
    {
        let phase = self.clear.standing().phase();
        let heard = self
            .sessions
            .on_record(phase, sealed, setup.inventory, free, work, out);
        use_up(&mut self.queue, heard);
        self.drawn = tells_measured(heard);
        heard
    }

    /// Handles a received record as `on_record` does, with the values that a responder chooses: this nonce, the next
    /// handle of the session, no opaque data and no padding. The reply to application data is the first that waits, lent
    /// from the queue.
    pub fn on_record_chosen(
        &mut self,
        setup: &Setup<'_>,
        sealed: &[u8],
        nonce: &[u8; 32],
        work: &mut Work,
        out: &mut RecordFrame,
    ) -> Heard
        ensures done { (r : RspSetup) (h : History) (tag : ℕ) (d : Draw) → IsSetUp setup.now r
            → d.bytes ≡ nonce.now → messages_of h < 2 ^ 64 - 1 → StandsFor self.old r h
            → IsDone r h (record_does r h tag sealed.now d) result (body_by result out.new)
            self.new }
        ensures drawn { (r : RspSetup) (h : History) (tag : ℕ) (d : Draw) → IsSetUp setup.now r
            → d.bytes ≡ nonce.now → messages_of h < 2 ^ 64 - 1 → StandsFor self.old r h
            → self.new.drawn ≡ is_drawn (record_does r h tag sealed.now d) }
        ensures harmless { (r : RspSetup) (h : History) (tag : ℕ) (d : Draw) → IsSetUp setup.now r
            → d.bytes ≡ nonce.now → messages_of h < 2 ^ 64 - 1 → StandsFor self.old r h
            → IsRecordHarmless r h tag sealed.now (record_chosen r h sealed.now d) d result
            out.new }
    {
        let phase = self.clear.standing().phase();
        let free = ResponseValues {
            nonce,
            opaque: &[],
            handle: self.sessions.next_handle(record_id(sealed).rsp),
            reply: self.queue.first(),
            pad: &[],
        };
        let heard = self
            .sessions
            .on_record(phase, sealed, setup.inventory, &free, work, out);
        use_up(&mut self.queue, heard);
        self.drawn = tells_measured(heard);
        heard
    }

    /// Queues application data to send in reply. On an error nothing changes.
    pub fn queue(&mut self, bytes: &[u8]) -> Result<(), QueueFault>
        ensures fault { (r : RspSetup) (h : History) → StandsFor self.old r h
            → MatchResult result (λ _. queue_fault (queue_of h) bytes.now ≡ None)
            (λ fault. queue_fault (queue_of h) bytes.now ≡ Some fault) }
        ensures stands { (r : RspSetup) (h : History) → StandsFor self.old r h
            → MatchResult result (λ _. StandsFor self.new r (Queued bytes.now ∷ h))
            (λ _. StandsFor self.new r h) }
    {
        self.queue.push(bytes)
    }

    /// Advances the clock: removes each established session that has waited for twice its HeartbeatPeriod (DSP0274,
    /// "HEARTBEAT").
    pub fn tick(&mut self, seconds: u32)
        ensures { (r : RspSetup) (h : History) → StandsFor self.old r h
            → StandsFor self.new r (Ticked seconds ∷ h) }
    {
        self.sessions.tick(seconds);
    }

    /// Removes the session with this RspSessionID, as if it timed out without a trace in the capture.
    pub fn expire(&mut self, id: u16)
        ensures { (r : RspSetup) (h : History) → StandsFor self.old r h
            → StandsFor self.new r (Dropped id ∷ h) }
    {
        self.sessions.expire(id);
    }
}
