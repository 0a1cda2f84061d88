ghost use Rattle.std.specs.Prelude.{◌≡◌};

use crate::LiveSession;
use spdm_basis::OutOfMemory;
use std::alloc::Global;
use std::marker::Model;

/// The slot of one session. Where there is none, what stands in it is overwritten: the invariant says so, so that no
/// call that empties a slot can leave a key or a plaintext in it. The session stays on the heap, so that a slot can be
/// moved. Allocates only when constructed (read, not proved). In contracts, an option of a session.
#[derive(Drop)]
pub struct SessionSlot {
    pub(crate) is_there: bool,
    pub(crate) live: Box<LiveSession>,
}

impl Model for SessionSlot {
    ghost use Rattle.std.specs.Prelude.{◌≡◌, Option, Some, None, false, if◌then◌else◌};
    ghost use Rattle.responder_core.specs.Wiped.{IsWipedLive};
    ghost use Rattle.responder_core.specs.declared.in_sessions.live_session.LiveSession.{LiveSession};

    ghost Value = { Option LiveSession };

    ghost view = { λ p. if p.is_there then Some p.live.value else None };

    ghost invariant = { λ p. p.is_there ≡ false → IsWipedLive p.live.value };
}

impl SessionSlot {
    ghost use Rattle.std.specs.Prelude.{◌≡◌, None, Some, IfOk, MatchOption};
    ghost use Rattle.responder_machine.specs.Session.{Events, after_tick};
    ghost use Rattle.responder_machine.specs.Setup.{RspSetup};
    ghost use Rattle.responder_core.specs.LiveSession.{IsSlotOf};

    /// A slot without a session.
    pub fn empty(alloc: Global) -> Result<SessionSlot, OutOfMemory>
        ensures { IfOk result (λ slot. slot ≡ None) }
    {
        match Box::new(alloc, LiveSession::wiped()) {
            Ok(live) => Ok(SessionSlot {
                is_there: false,
                live,
            }),
            Err(_) => Err(OutOfMemory),
        }
    }

    /// The session.
    pub fn live(&self) -> Option<&LiveSession>
        ensures { MatchOption result (self.now ≡ None) (λ live. self.now ≡ Some live.now) }
    {
        if self.is_there {
            Some(self.live.as_ref())
        } else {
            None
        }
    }

    /// Empties the slot: the session is overwritten.
    pub fn clear(&mut self)
        ensures { self.new ≡ None }
    {
        if self.is_there {
            self.live.wipe();
            self.is_there = false;
        }
    }

    /// Puts a session into the slot, over what was there.
    pub fn put(&mut self, live: LiveSession)
        ensures { self.new ≡ Some live }
    {
        *self.live = live;
        self.is_there = true;
    }

    // Takes the session out of the slot, which is empty then; used only by the checker.
    pub(crate) fn take_out(&mut self) -> Option<LiveSession>
        ensures taken { result ≡ self.old }
        ensures empty { self.new ≡ None }
    {
        if !self.is_there {
            return None;
        }
        self.is_there = false;
        Some(Box::replace(&mut self.live, LiveSession::wiped()))
    }

    // Puts into the slot what was taken out of one.
    pub(crate) fn put_back(&mut self, session: Option<LiveSession>)
        ensures { self.new ≡ session }
    {
        match session {
            Some(live) => self.put(live),
            None => self.clear(),
        }
    }

    // Advances the clock: a session that has waited for too long is gone, and overwritten.
    pub(crate) fn wait(&mut self, seconds: u32)
        ensures { (r : RspSetup) (s : Events) → IsSlotOf self.old r s
            → IsSlotOf self.new r (after_tick s seconds) }
    {
        if self.is_there && !self.live.wait(seconds) {
            self.clear();
        }
    }
}
