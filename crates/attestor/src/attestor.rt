ghost use Rattle.std.specs.Prelude.{◌≡◌};
ghost use Rattle.attestor.specs.Standing.{waits_after};

use crate::Progressed;
use appraise::Policy;
use mctp_framing::PacketList;
use requester::{Command, Event, Finished, Requester};
use spdm_grammar::names::ALL_BLOCKS;

/// The ReqSessionID of the session that is opened: the least, since no other is.
pub(crate) const OWN_SESSION: u8 = 1;

/// A requester that connects, opens a session, asks for all measurements in it, appraises them under a policy, and ends
/// the session. `start` is called once, before the other calls. Allocates only when constructed (read, not proved).
#[derive(Drop)]
pub struct Attestor {
    pub(crate) requester: Requester,
    pub(crate) policy: Policy,
    // The record was appraised, or no record will come.
    pub(crate) is_decided: bool,
    // A request is outstanding.
    pub(crate) is_waiting: bool,
}

// Whether a request is outstanding after a packet of which this was told, by whether one was before.
fn waits_after(event: Event, before: bool) -> bool
    ensures { result ≡ waits_after event before }
{
    match event {
        Event::Progress => true,
        Event::Done(_) | Event::Refused(_) | Event::Stopped(_) | Event::Lost(_, _) => false,
        Event::More | Event::Warned(_) | Event::Ignored(_) => before,
    }
}

impl Attestor {
    ghost use Rattle.std.specs.Prelude.{◌≡◌, [], ℕ, List, Bool, true, false};
    ghost use Rattle.attestor.specs.Attesting.{Attesting, attesting_given, attesting_started, attesting_timed, follows, has_failed, is_decided};
    ghost use Rattle.attestor.specs.Standing.{IsGiven, IsHeard, IsSent, StandsFor, waits, waits_after};
    ghost use Rattle.requester_machine.specs.Requesting.{requester_given};

    /// Sends the first request, GET_VERSION. The packets overwrite `out`. Never allocates (read, not proved).
    pub fn start(&mut self, out: &mut PacketList)
        ensures { (a : Attesting) → StandsFor self.old a
            → IsSent (attesting_started a) out.new self.new }
    {
        out.clear();
        if !self.is_decided {
            let _ = self.tell(Command::Connect, out);
        }
    }

    /// Handles a received packet. The packets of the next request, if one is sent, overwrite `out`; if none is, `out` is
    /// empty. `Verdict` and `Failed` are returned exactly at the packet that decides, and `Going` at any other; after
    /// `Failed` no packet is sent. Never allocates (read, not proved).
    pub fn on_packet(&mut self, packet: &[u8], out: &mut PacketList) -> Progressed
        ensures given { (a : Attesting) → StandsFor self.old a
            → IsGiven (attesting_given a packet.now) result out.new self.new }
        ensures silent { (a : Attesting) → StandsFor self.old a → has_failed a.decision ≡ true
            → out.new ≡ [] }
    {
        let event = self.hear(packet, out);
        if self.is_decided {
            return Progressed::Going;
        }
        self.follow(event, out)
    }

    /// Some time passed: the outstanding request, if there is one, is sent again. Its packets overwrite `out`. Never
    /// allocates (read, not proved).
    pub fn on_time(&mut self, out: &mut PacketList)
        ensures timed { (a : Attesting) → StandsFor self.old a
            → IsSent (attesting_timed a) out.new self.new }
        ensures silent { (a : Attesting) → StandsFor self.old a → has_failed a.decision ≡ true
            → out.new ≡ [] }
    {
        out.clear();
        if self.is_waiting {
            let _ = self.tell(Command::Retry, out);
        }
    }

    // Gives a packet to the requester.
    fn hear(&mut self, packet: &[u8], out: &mut PacketList) -> Event
        ensures decided { self.new.is_decided ≡ self.old.is_decided }
        ensures heard { (a : Attesting) → StandsFor self.old a
            → IsHeard a (requester_given a.requester packet.now) result out.new self.new }
    {
        let event = self.requester.on_packet(packet, out);
        self.is_waiting = waits_after(event, self.is_waiting);
        event
    }

    // Does what follows of an event, of a packet that sent the packets in `out`, where nothing was decided before.
    fn follow(&mut self, event: Event, out: &mut PacketList) -> Progressed
        ensures { (a : Attesting) (before : Bool) → StandsFor self.old a
            → is_decided a.decision ≡ false → waits a ≡ waits_after event before
            → IsGiven (follows a out.old event) result out.new self.new }
    {
        match event {
            Event::Done(Finished::Connected) => self.go_on(Command::Open { summary: 0 }, out),
            Event::Done(Finished::Opened(_)) => {
                let session = Some(OWN_SESSION);
                let op = ALL_BLOCKS;
                self.go_on(Command::Measure { session, op }, out)
            }
            Event::Done(Finished::Measured(_)) => self.decide(out),
            Event::Refused(_) | Event::Stopped(_) | Event::Lost(_, _) => {
                self.is_decided = true;
                Progressed::Failed
            }
            Event::Done(Finished::Answered(_)) => Progressed::Going,
            Event::Done(Finished::Alive(_)) => Progressed::Going,
            Event::Done(Finished::Updated(_)) => Progressed::Going,
            Event::Done(Finished::Ended(_)) => Progressed::Going,
            Event::Progress | Event::More | Event::Warned(_) | Event::Ignored(_) => {
                Progressed::Going
            }
        }
    }
}
