ghost use Rattle.std.specs.Prelude.{◌≡◌, ◌≤◌, ◌<◌, ◌^◌, ◌-◌, ◌∷◌, ℕ, List, Bool, Some, drop, length};
ghost use Rattle.requester_core.specs.Hearing.{IsExchangeFor, IsRecordFor};
ghost use Rattle.requester_core.specs.InSession.{Settles};
ghost use Rattle.requester_core.specs.Joined as joined;
ghost use Rattle.requester_core.specs.Joined.{IsAnswered, IsAsked, IsBeside, StandsFor, is_bringing};
ghost use Rattle.requester_core.specs.Setup.{IsSetUp};
ghost use Rattle.requester_machine.specs.Asking.Outcome.{Adds};
ghost use Rattle.requester_machine.specs.Commands.{Free};
ghost use Rattle.requester_machine.specs.Hearing.{hears};
ghost use Rattle.requester_machine.specs.History.{Entry, History, sent_in};
ghost use Rattle.requester_machine.specs.Message.{Ask, Sent};
ghost use Rattle.requester_machine.specs.Message.Aim.{InSession};
ghost use Rattle.requester_machine.specs.Setup.{ReqSetup};
ghost use Rattle.requester_machine.specs.Shown.{event_in};
ghost use Rattle.requester_machine.specs.UnderWay.{HasSizes};
ghost use Rattle.spdm_grammar.specs.declared.told.event.Event.TheVariants as event;
ghost use Rattle.spdm_machine.specs.Keys.{Draw};
ghost use Rattle.spdm_grammar.specs.declared.names.TheConstants.{MAX_PADDING};

use crate::body::{write_clear, write_record};
use crate::clear::bodies::message_in;
use crate::{Body, BodyOutcome, Reaction, RecordOutcome, RequesterCore, Setup};
use spdm_grammar::{Event, Finished, ReqIgnored};

// Whether data came with it.
fn is_bringing(event: Event) -> bool
    ensures { result ≡ is_bringing event }
{
    matches!(
        event,
        Event::Done(Finished::Answered(_) | Finished::Measured(_))
    )
}

// This is reported, and nothing is sent.
fn told(event: Event) -> Reaction
    ensures { result ≡ joined.told event }
{
    Reaction { event, tag: None }
}

// A message with this tag is sent.
fn sent(tag: u8) -> Reaction
    ensures { result ≡ joined.sent tag }
{
    Reaction {
        event: Event::Progress,
        tag: Some(tag),
    }
}

impl RequesterCore {
    // The session with this ReqSessionID, which took the body, sent a record.
    fn follow(&mut self, id: u16, out: &mut Body) -> Reaction
        ensures { (q : ReqSetup) (h : History) (owner : Bool) (tag : ℕ) (body : List ℕ) (f : Free)
            (d : Draw) (entry : Entry) (next : Sent) (ask : Ask) → IsBeside self.old q h entry
            → hears q h owner tag body f d ≡ Adds entry → event_in entry ≡ Some event.Progress
            → sent_in entry ≡ Some next → next.aim ≡ InSession id ask
            → IsAnswered q h (Adds entry) result out.new self.new }
    {
        let tag = self.clear_state.send_record(id);
        write_record(self.sessions.record(), out);
        sent(tag)
    }

    // The session with this ReqSessionID took the body, of which this is told.
    fn settle(&mut self, id: u16, event: Event)
        ensures { (q : ReqSetup) (h : History) (owner : Bool) (tag : ℕ) (body : List ℕ) (f : Free)
            (d : Draw) (entry : Entry) (waits : Sent) (ask : Ask) → HasSizes q
            → IsBeside self.old q h entry → IsAsked h waits id ask
            → Settles q h owner tag body f d entry → event_in entry ≡ Some event
            → StandsFor self.new q (entry ∷ h) }
    {
        if is_bringing(event) {
            self.clear_state.bring(self.sessions.data(id));
        } else {
            self.clear_state.clear_outstanding();
        }
    }

    // Handles `message`, the PSK_EXCHANGE_RSP that the session with this ReqSessionID awaits.
    fn begin(&mut self, id: u16, pad: &[u8], out: &mut Body) -> Reaction
        requires pad { length pad.now ≤ MAX_PADDING }
        ensures { (q : ReqSetup) (h : History) (owner : Bool) (tag : ℕ) (body : List ℕ) (f : Free)
            (d : Draw) → f.pad ≡ pad.now
            → IsExchangeFor q h owner tag body id self.old.clear_state self.old.clear_state self.old.message
            → StandsFor self.old q h
            → IsAnswered q h (hears q h owner tag body f d) result out.new self.new }
    {
        match self.sessions.begin(self.message.as_slice(), pad) {
            Ok(()) => self.follow(id, out),
            Err(cause) => told(Event::Ignored(cause)),
        }
    }

    // Handles a record for the session with this ReqSessionID, which awaits one.
    fn on_record(&mut self, id: u16, sealed: &[u8], pad: &[u8], out: &mut Body) -> Reaction
        requires pad { length pad.now ≤ MAX_PADDING }
        ensures { (q : ReqSetup) (h : History) (owner : Bool) (tag : ℕ) (body : List ℕ) (f : Free)
            (d : Draw) → HasSizes q → f.pad ≡ pad.now → length h < 2 ^ 64 - 1
            → sealed.now ≡ drop 1 body
            → IsRecordFor q h owner tag body id self.old.clear_state self.old.clear_state
            → StandsFor self.old q h
            → IsAnswered q h (hears q h owner tag body f d) result out.new self.new }
    {
        match self.sessions.on_record(sealed, pad) {
            RecordOutcome::Ignored(fault) => told(Event::Ignored(ReqIgnored::Record(fault))),
            RecordOutcome::Sends => self.follow(id, out),
            RecordOutcome::Rests(event) => {
                self.settle(id, event);
                told(event)
            }
            RecordOutcome::Ends(event) => {
                self.settle(id, event);
                told(event)
            }
        }
    }

    /// Handles a complete message body, with its tag owner bit and tag. A record sent in response has this padding, of
    /// at most 16 bytes. The body sent next, if any, overwrites `out`. After `Ignored` and `Warned` nothing has
    /// changed, and the outstanding request is still outstanding.
    pub fn on_body(
        &mut self,
        setup: &Setup<'_>,
        owner: bool,
        tag: u8,
        body: &[u8],
        pad: &[u8],
        out: &mut Body,
    ) -> Reaction
        requires pad { length pad.now ≤ MAX_PADDING }
        ensures { (q : ReqSetup) (h : History) (f : Free) (d : Draw) → IsSetUp setup.now q
            → f.pad ≡ pad.now → length h < 2 ^ 64 - 1 → StandsFor self.old q h
            → IsAnswered q h (hears q h owner tag body.now f d) result out.new self.new }
    {
        let heard = self.clear_state.on_body(
            setup,
            &mut self.gathered,
            owner,
            tag,
            body,
            &mut self.message,
        );
        match heard {
            BodyOutcome::Ignored(cause) => told(Event::Ignored(cause)),
            BodyOutcome::Warned(code) => told(Event::Warned(code)),
            BodyOutcome::Rests(event) => told(event),
            BodyOutcome::Closes { id, told: event } => {
                self.sessions.close(id);
                told(event)
            }
            BodyOutcome::Sends { tag } => {
                write_clear(self.message.as_slice(), out);
                sent(tag)
            }
            BodyOutcome::Exchange { id } => self.begin(id, pad, out),
            BodyOutcome::Record { id } => self.on_record(id, message_in(body), pad, out),
        }
    }
}
