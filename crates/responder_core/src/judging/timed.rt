//! Which sessions have a period at all, so that a capture may have lost them without a packet. They are dropped by
//! `LiveSession::wait` in `in_sessions/live_session.rt`.
use crate::{Connection, LiveSession, Sessions};

impl LiveSession {
    ghost use Rattle.std.specs.Prelude.{◌≡◌};
    ghost use Rattle.responder_machine.specs.Session.{Events, is_timed};
    ghost use Rattle.responder_machine.specs.Setup.{RspSetup};
    ghost use Rattle.responder_core.specs.LiveSession.{StandsFor};

    /// Whether the session is timed: it is established, and its HeartbeatPeriod is not 0.
    pub fn is_timed(&self) -> bool
        ensures { (r : RspSetup) (s : Events) → StandsFor self.now r s → result ≡ is_timed s }
    {
        self.is_held() && self.period != 0
    }
}

impl Sessions {
    ghost use Rattle.std.specs.Prelude.{◌≡◌};
    ghost use Rattle.responder_machine.specs.History.{History};
    ghost use Rattle.responder_machine.specs.Session.{session_of};
    ghost use Rattle.responder_machine.specs.Setup.{RspSetup};
    ghost use Rattle.responder_core.specs.Sessions.{StandsFor, is_timed_in};

    /// Whether there is a session with this RspSessionID that is timed, and so may be dropped without a trace.
    pub fn is_timed(&self, id: u16) -> bool
        ensures { (r : RspSetup) (h : History) → StandsFor self.now r h
            → result ≡ is_timed_in (session_of id h) }
    {
        match self.session(id) {
            Some(live) => live.is_timed(),
            None => false,
        }
    }
}

impl Connection {
    ghost use Rattle.std.specs.Prelude.{◌≡◌};
    ghost use Rattle.responder_machine.specs.History.{History};
    ghost use Rattle.responder_machine.specs.Session.{session_of};
    ghost use Rattle.responder_machine.specs.Setup.{RspSetup};
    ghost use Rattle.responder_core.specs.Connected.{StandsFor};
    ghost use Rattle.responder_core.specs.Sessions.{is_timed_in};

    /// Whether there is a session with this RspSessionID that is timed, and so may be dropped without a trace.
    pub fn is_timed(&self, id: u16) -> bool
        ensures { (r : RspSetup) (h : History) → StandsFor self.now r h
            → result ≡ is_timed_in (session_of id h) }
    {
        self.sessions.is_timed(id)
    }
}
