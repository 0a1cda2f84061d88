use crate::Responder;
use spdm_basis::Eid;
use spdm_grammar::{Phase, SessionList, SessionView};

// Accessors.
impl Responder {
    ghost use Rattle.std.specs.Prelude.{◌≡◌};
    ghost use Rattle.std.specs.Option.{option_map};
    ghost use Rattle.responder.specs.Standing.{IsSessionAt, StandsFor, views_at};
    ghost use Rattle.responder_machine.specs.History.{clear_turns, phase_of};
    ghost use Rattle.responder_machine.specs.Responding.{Responding, connection_of, last_data};

    /// The phase of the connection with this endpoint; `None` exactly when no requester has this endpoint ID.
    pub fn phase(&self, eid: Eid) -> Option<Phase>
        ensures { (r : Responding) → StandsFor self.now r
            → result ≡ option_map (λ c. phase_of (clear_turns c.history))
            (connection_of eid.number r.connections) }
    {
        match self.place_of(eid.number()) {
            Some(place) => Some(self.peers[place].connection.phase()),
            None => None,
        }
    }

    /// A view of the session with this endpoint and RspSessionID; `None` if there is none.
    pub fn session(&self, eid: Eid, id: u16) -> Option<SessionView>
        ensures { (r : Responding) → StandsFor self.now r
            → IsSessionAt result id (connection_of eid.number r.connections) }
    {
        match self.place_of(eid.number()) {
            Some(place) => self.peers[place].connection.view(id),
            None => None,
        }
    }

    /// Views of the sessions with this endpoint, by rising RspSessionID; empty if no requester has this endpoint ID.
    pub fn sessions(&self, eid: Eid) -> SessionList
        ensures { (r : Responding) → StandsFor self.now r
            → result ≡ views_at (connection_of eid.number r.connections) }
    {
        match self.place_of(eid.number()) {
            Some(place) => self.peers[place].connection.sessions(),
            None => SessionList::new(),
        }
    }

    /// The application data received last, over all connections; empty before the first.
    pub fn last_data(&self) -> &[u8]
        ensures { (r : Responding) → StandsFor self.now r → result.now ≡ last_data r }
    {
        self.shared.last.as_slice()
    }
}
