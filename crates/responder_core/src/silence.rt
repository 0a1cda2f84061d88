//! How long sessions have been silent.
use crate::{Connection, Sessions};

/// How long a session has been silent (DSP0274, "HEARTBEAT").
#[derive(Clone, Copy, Debug, PartialEq, Eq)]
pub struct Silence {
    /// The seconds since its last new record, as far as it is timed; 0 in a handshake and where `period` is 0.
    pub seconds: u32,
    /// Its HeartbeatPeriod, in seconds. Where it is not 0, the requester owes a record by then, and an established
    /// session is removed at twice as many seconds.
    pub period: u8,
}

impl Sessions {
    ghost use Rattle.responder_core.specs.Sessions.{StandsFor};
    ghost use Rattle.responder_core.specs.Silence.{IsSilenceOf};
    ghost use Rattle.responder_machine.specs.History.{History};
    ghost use Rattle.responder_machine.specs.Session.{session_of};
    ghost use Rattle.responder_machine.specs.Setup.{RspSetup};

    /// How long the session with this RspSessionID has been silent; `None` if there is none.
    pub fn silence(&self, id: u16) -> Option<Silence>
        ensures { (r : RspSetup) (h : History) → StandsFor self.now r h
            → IsSilenceOf result (session_of id h) }
    {
        match self.session(id) {
            Some(live) => Some(Silence {
                seconds: live.idle,
                period: live.period,
            }),
            None => None,
        }
    }
}

impl Connection {
    ghost use Rattle.responder_core.specs.Connected.{StandsFor};
    ghost use Rattle.responder_core.specs.Silence.{IsSilenceOf};
    ghost use Rattle.responder_machine.specs.History.{History};
    ghost use Rattle.responder_machine.specs.Session.{session_of};
    ghost use Rattle.responder_machine.specs.Setup.{RspSetup};

    /// How long the session with this RspSessionID has been silent; `None` if there is none.
    pub fn silence(&self, id: u16) -> Option<Silence>
        ensures { (r : RspSetup) (h : History) → StandsFor self.now r h
            → IsSilenceOf result (session_of id h) }
    {
        self.sessions.silence(id)
    }
}
