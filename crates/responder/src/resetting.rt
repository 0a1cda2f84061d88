//! What is done where a requester is known to be gone.
ghost use Rattle.std.specs.Prelude.{◌≡◌};
ghost use Rattle.responder.specs.Resetting.{version_packet};

use crate::Responder;
use crate::serving::WEAR_LIMIT;
use mctp_framing::{PacketBuf, PacketList, Route, cut};
use spdm_basis::Eid;
use spdm_grammar::names::message_type::SPDM;
use spdm_grammar::names::request_code::GET_VERSION;
use spdm_grammar::names::spdm_version::V1_0;
use thiserror::Error;

/// Why no connection is reset, in the order of the checks.
#[derive(Clone, Copy, Debug, PartialEq, Eq, Error)]
pub enum ResetFault {
    /// Worn out: the responder has reached its lifetime limit of 2^40 packets.
    #[error("too many packets")]
    Worn,
    /// No requester has this endpoint ID.
    #[error("an unknown peer")]
    UnknownPeer,
}

// GET_VERSION from an endpoint to another (DSP0274, "GET_VERSION request and VERSION response messages"), with message
// tag 0.
fn version_packet(to: Eid, from: Eid) -> PacketBuf
    ensures { result ≡ version_packet to.number from.number }
{
    let route = Route {
        to,
        from,
        owner: true,
        tag: 0,
    };
    let body = [SPDM, V1_0, GET_VERSION, 0, 0];
    let mut packets = cut(&body, 64, route);
    match packets.next() {
        Some(packet) => packet,
        None => unreachable!(),
    }
}

impl Responder {
    ghost use Rattle.std.specs.Prelude.{◌≡◌, [], None, Some, MatchResult};
    ghost use Rattle.responder.specs.Resetting.{after_reset, reset_fault, version_packet};
    ghost use Rattle.responder.specs.Standing.{StandsFor};
    ghost use Rattle.responder.specs.Unharmed.{AreOthersKept};
    ghost use Rattle.responder_machine.specs.Responding.{Responding, responder_hears};

    // Takes GET_VERSION of this endpoint; its answer is not kept.
    fn hear_version(&mut self, eid: Eid, out: &mut PacketList)
        ensures stands { (r : Responding) → StandsFor self.old r → StandsFor self.new
            (responder_hears r (version_packet r.part.eid eid.number)).after }
        ensures empty { out.new ≡ [] }
    {
        let packet = version_packet(self.part.eid, eid);
        let _ = self.on_packet(packet.as_slice(), out);
        out.clear();
    }

    /// Gives up the connection with this endpoint, all its sessions and its unfinished message, where the requester is
    /// known to be gone: exactly what GET_VERSION from there does, and one packet of the lifetime limit. Its queued
    /// replies stay. `out` is room for the answer, and empty afterwards. The connections with other endpoints stay as
    /// they were, and so do their unfinished messages. `ResetFault` lists the faults in the order of the checks; on a
    /// fault nothing changes. Never allocates (read, not proved).
    pub fn reset(&mut self, eid: Eid, out: &mut PacketList) -> Result<(), ResetFault>
        ensures fault { (r : Responding) → StandsFor self.old r → MatchResult result
            (λ _. reset_fault eid.number r ≡ None)
            (λ fault. reset_fault eid.number r ≡ Some fault) }
        ensures stands { (r : Responding) → StandsFor self.old r
            → StandsFor self.new (after_reset eid.number r) }
        ensures others { (r : Responding) → StandsFor self.old r
            → AreOthersKept r (version_packet r.part.eid eid.number) self.new }
        ensures empty { out.new ≡ [] }
    {
        out.clear();
        if self.given >= WEAR_LIMIT {
            return Err(ResetFault::Worn);
        }
        match self.place_of(eid.number()) {
            Some(_) => {
                self.hear_version(eid, out);
                Ok(())
            }
            None => Err(ResetFault::UnknownPeer),
        }
    }
}
