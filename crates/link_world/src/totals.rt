ghost use Rattle.std.specs.Prelude.{◌≡◌, ◌+◌, ◌-◌, ◌^◌, count_by, min};
ghost use Rattle.script_ends.specs.Told.{is_answered};
ghost use Rattle.link_world.specs.HeldOpen.{is_open, live_with};
ghost use Rattle.link_world.specs.Standing.{IsAsker, counted};
ghost use Rattle.link_world.specs.Told.{is_taken};
ghost use Rattle.requester_machine.specs.Requesting.{Requesting};
ghost use Rattle.responder.specs.Standing as answering;
ghost use Rattle.responder_machine.specs.Responding.{Responding};
ghost use Rattle.spdm_machine.specs.Sessions.{is_past_handshake, one_if};

use crate::ends::{AddressedRequester, Ends};
use responder::Responder;
use spdm_grammar::{Event, Finished, Heard, SessionView, Stage};

/// Counters of a world.
#[derive(Debug, Clone, Copy, PartialEq, Eq)]
pub struct Totals {
    /// Packets sent: at most 65,536.
    pub packets: u32,
    /// Application messages received at all endpoints, including those of ended sessions.
    pub taken: u64,
    /// Established sessions (stage Open or Verifying), counted at each endpoint: one that is established at both counts
    /// twice.
    pub live: u32,
}

// Whether the responder took application data.
pub(crate) fn is_taken(heard: &Heard) -> bool
    ensures { result ≡ is_taken heard.now }
{
    matches!(heard, Heard::Taken(_))
}

// Whether application data of a requester were answered.
pub(crate) fn is_answered(event: &Event) -> bool
    ensures { result ≡ is_answered event.now }
{
    matches!(event, Event::Done(Finished::Answered(_)))
}

// A count of application messages with one more, where there is one more.
pub(crate) fn with_one(taken: u64, more: bool) -> u64
    ensures { result ≡ counted (taken + one_if more) }
{
    taken.saturating_add(u64::from(more))
}

// Whether a session of this stage is established.
fn is_past_handshake(stage: Stage) -> bool
    ensures { result ≡ is_past_handshake stage }
{
    matches!(stage, Stage::Open | Stage::Verifying)
}

// How many of the sessions that an end shows are held open.
fn held_in(views: &[SessionView]) -> u32
    ensures { result ≡ min (count_by is_open views.now) (2 ^ 32 - 1) }
{
    let held = views.iter().filter(|view| is_past_handshake(view.stage));
    u32::try_from(held.count()).unwrap_or(u32::MAX)
}

// How many sessions a requester holds open, and the responder with it.
fn held_with(asker: &AddressedRequester, responder: &Responder) -> u32
    ensures { (a : Requesting) (r : Responding) → IsAsker asker.now a
        → answering.StandsFor responder.now r → result ≡ live_with a r.connections }
{
    let asked = held_in(asker.requester.sessions().as_slice());
    let served = held_in(responder.sessions(asker.eid).as_slice());
    asked.saturating_add(served)
}

impl Ends {
    ghost use Rattle.std.specs.Prelude.{◌≡◌};
    ghost use Rattle.link_world.specs.Standing.{AreEnds};
    ghost use Rattle.world_machine.specs.Totals.{totals_of};
    ghost use Rattle.world_machine.specs.World.{World};

    /// The number of established sessions (stage Open or Verifying), over all endpoints.
    pub(crate) fn live(&self) -> u32
        ensures { (w : World) → AreEnds self.now w → result ≡ (totals_of w).live }
    {
        let mut live: u32 = 0;
        for asker in self.requesters.as_slice() {
            live = live.saturating_add(held_with(asker, &self.responder));
        }
        live
    }
}
