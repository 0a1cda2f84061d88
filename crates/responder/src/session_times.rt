use crate::Responder;
use responder_core::Silence;
use spdm_basis::Eid;

// What is kept of a session beside its view.
impl Responder {
    ghost use Rattle.std.specs.Prelude.{◌≡◌};
    ghost use Rattle.responder.specs.Standing.{StandsFor};
    ghost use Rattle.responder.specs.SessionTimes.{IsSilenceAt, data_at};
    ghost use Rattle.responder_machine.specs.Responding.{Responding, connection_of};

    /// How long the session with this endpoint and RspSessionID has been silent, with its HeartbeatPeriod; `None` if
    /// there is none.
    pub fn silence(&self, eid: Eid, id: u16) -> Option<Silence>
        ensures { (r : Responding) → StandsFor self.now r
            → IsSilenceAt result id (connection_of eid.number r.connections) }
    {
        match self.place_of(eid.number()) {
            Some(place) => self.peers[place].connection.silence(id),
            None => None,
        }
    }

    /// The application data that the session with this endpoint and RspSessionID received last; empty before the first,
    /// and where there is no such session.
    pub fn data(&self, eid: Eid, id: u16) -> &[u8]
        ensures { (r : Responding) → StandsFor self.now r
            → result.now ≡ data_at id (connection_of eid.number r.connections) }
    {
        match self.place_of(eid.number()) {
            Some(place) => self.peers[place].connection.data(id),
            None => &[],
        }
    }
}
