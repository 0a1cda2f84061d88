use crate::Responder;
use spdm_basis::Eid;
use spdm_grammar::ReplyFault;

// The reply queue, and the clock.
impl Responder {
    ghost use Rattle.std.specs.Prelude.{◌≡◌, None, Some, MatchResult};
    ghost use Rattle.responder.specs.Standing.{StandsFor};
    ghost use Rattle.responder_machine.specs.Independence.{after_reply};
    ghost use Rattle.responder_machine.specs.Responding.{Responding, connection_of, reply_fault_of, ticks};

    /// Queues application data for the requester with this endpoint ID: each message of application data that it sends
    /// is answered with the first in its queue. `ReplyFault` lists the faults in the order of the checks; on a fault
    /// nothing changes. Never allocates (read, not proved).
    pub fn queue(&mut self, eid: Eid, bytes: &[u8]) -> Result<(), ReplyFault>
        ensures fault { (r : Responding) → StandsFor self.old r → MatchResult result
            (λ _. reply_fault_of (connection_of eid.number r.connections) bytes.now ≡ None)
            (λ fault. reply_fault_of (connection_of eid.number r.connections) bytes.now
            ≡ Some fault) }
        ensures stands { (r : Responding) → StandsFor self.old r
            → StandsFor self.new (after_reply eid.number bytes.now r) }
    {
        match self.place_of(eid.number()) {
            Some(place) => match self.peers.get_mut(place) {
                Some(peer) => peer.queue(bytes),
                None => unreachable!(),
            },
            None => Err(ReplyFault::UnknownPeer),
        }
    }

    /// Advances the clock of all connections: removes each established session with a HeartbeatPeriod above 0 in which
    /// no new record has opened for twice that period (DSP0274, "HEARTBEAT"). Sessions with period 0 are never timed
    /// out. Never allocates (read, not proved).
    pub fn tick(&mut self, seconds: u32)
        ensures { (r : Responding) → StandsFor self.old r → StandsFor self.new (ticks r seconds) }
    {
        for place in 0..self.peers.len() {
            match self.peers.get_mut(place) {
                Some(peer) => peer.tick(seconds),
                None => unreachable!(),
            }
        }
    }
}
