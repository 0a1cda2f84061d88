use crate::unfinished::broken_first_rule;
use crate::{Assembler, PacketView, Route};

/// What a packet that completes a message body completes it from: the body is `before`, followed by the payload of the
/// packet.
#[derive(Clone, Copy, Debug, PartialEq, Eq)]
pub struct Completing<'a> {
    /// The route of the body.
    pub route: Route,
    /// The payloads of the packets before this one; empty where the body is one packet.
    pub before: &'a [u8],
}

// A packet that is not the last of its body, or breaks a rule, completes none.
impl Assembler {
    ghost use Rattle.std.specs.Prelude.{◌≡◌, ◌<◌, ◌≤◌, ◌+◌, ◌∷◌, ◌++◌, [], List, Some, None, true, IfSome, MatchOption, length};
    ghost use Rattle.mctp_framing.specs.Assembling.{StandsFor, answer_later, answer_to};
    ghost use Rattle.mctp_framing.specs.Completing.{IsCompleted, completed, completed_by};
    ghost use Rattle.mctp_framing.specs.Gathering.{answer_from, broken_rule, gathered, is_ours};
    ghost use Rattle.mctp_framing.specs.Packet.{PacketFields, view_of};

    /// What `take` would complete if it were given this packet, as parsed by `Packet::parse`; `None` exactly where it
    /// would complete no body. Nothing changes.
    pub fn completing(&self, packet: PacketView<'_>) -> Option<Completing<'_>>
        requires { packet.tag < 8 }
        ensures value { (given : List PacketFields) → StandsFor self.now given
            → completed_by result packet.entry.payload.now
            ≡ completed (gathered self.now.receiver given (view_of packet.entry)) }
        ensures fits { IfSome result
            (λ c. length c.before.now + length packet.entry.payload.now ≤ self.now.receiver.limit) }
    {
        if packet.to != self.own.number() || packet.from != self.peer.number() {
            return None;
        }
        let before = self.before(packet)?;
        Some(Completing {
            route: self.route(packet),
            before,
        })
    }

    // The payloads before a packet for the own endpoint and from the peer, where it completes a body.
    fn before(&self, packet: PacketView<'_>) -> Option<&[u8]>
        ensures value { is_ours self.now.receiver (view_of packet.entry) ≡ true
            → MatchOption result (completed (answer_to self.now (view_of packet.entry)) ≡ None)
            (λ before. IsCompleted before.now (view_of packet.entry)
            (answer_to self.now (view_of packet.entry))) }
        ensures fits { IfSome result
            (λ before. length before.now + length packet.entry.payload.now
            ≤ self.now.receiver.limit) }
    {
        if !packet.end {
            return None;
        }
        if packet.start {
            return self.before_first(packet);
        }
        self.before_later(packet)
    }

    // The payloads before a first packet with EOM that breaks no rule: none.
    fn before_first(&self, packet: PacketView<'_>) -> Option<&[u8]>
        requires { packet.end ≡ true }
        ensures value { MatchOption result
            (completed (answer_from (broken_rule self.now.receiver.limit (view_of packet.entry ∷ []))
            (view_of packet.entry) ([] ++ packet.entry.payload.now)) ≡ None)
            (λ before. IsCompleted before.now (view_of packet.entry)
            (answer_from (broken_rule self.now.receiver.limit (view_of packet.entry ∷ []))
            (view_of packet.entry) ([] ++ packet.entry.payload.now))) }
        ensures fits { IfSome result
            (λ before. length before.now + length packet.entry.payload.now
            ≤ self.now.receiver.limit) }
    {
        match broken_first_rule(packet, self.body.limit()) {
            Some(_) => None,
            None => Some(&[]),
        }
    }

    // The payloads before a later packet with EOM that breaks no rule.
    fn before_later(&self, packet: PacketView<'_>) -> Option<&[u8]>
        requires { packet.end ≡ true }
        ensures value { MatchOption result
            (completed (answer_later self.now.unfinished self.now (view_of packet.entry)) ≡ None)
            (λ before. IsCompleted before.now (view_of packet.entry)
            (answer_later self.now.unfinished self.now (view_of packet.entry))) }
        ensures fits { IfSome result
            (λ before. length before.now + length packet.entry.payload.now
            ≤ self.now.receiver.limit) }
    {
        let unfinished = self.unfinished?;
        if !unfinished.goes_on_with(packet) {
            return None;
        }
        let before = self.body.as_slice();
        match unfinished.broken_rule(packet, before.len(), self.body.limit()) {
            Some(_) => None,
            None => Some(before),
        }
    }
}
