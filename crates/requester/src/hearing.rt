ghost use Rattle.std.specs.Prelude.{◌≡◌, ◌<◌, ◌^◌, ◌-◌, [], ℕ, List, Ok, length};
ghost use Rattle.requester_core.specs.Joined as joined;
ghost use Rattle.mctp_framing.specs.Packet.{parsed, view_of};
ghost use Rattle.requester.specs.SetUp.{IsPart};
ghost use Rattle.requester.specs.Standing.{IsCounted, IsGiven, IsHeard, StandsFor};
ghost use Rattle.requester_machine.specs.Does.{IsMade, requester_hears};
ghost use Rattle.requester_machine.specs.History.{History};
ghost use Rattle.requester_machine.specs.Requesting.{Requesting, hears_packet, requester_given};
ghost use Rattle.requester_machine.specs.Setup.{ReqSetup};
ghost use Rattle.spdm_machine.specs.Keys.{Draw};

use crate::Requester;
use crate::part::Part;
use crate::sending::send;
use crate::whole::WEAR_LIMIT;
use mctp_framing::{Fed, Packet, PacketList, PacketView, Route};
use requester_core::{Body, RequesterCore};
use spdm_grammar::{Event, ReqIgnored};

// Handles a complete message body that arrived by this route. The packets sent next overwrite `out`; if none are sent
// `out` is unchanged. Records are sent without padding. The body sent overwrites `body`.
fn hear(
    asking: &mut RequesterCore,
    part: &Part,
    route: Route,
    bytes: &[u8],
    body: &mut Body,
    out: &mut PacketList,
) -> Event
    ensures { (q : ReqSetup) (h : History) (d : Draw) → IsPart part.now q → IsMade q h
        → length h < 2 ^ 64 - 1 → out.old ≡ [] → joined.StandsFor asking.old q h
        → IsHeard q h (requester_hears q h route.owner route.tag bytes.now d) result out.new
        asking.new }
{
    let reaction = asking.on_body(&part.setup(), route.owner, route.tag, bytes, &[], body);
    if let Some(tag) = reaction.tag {
        send(part, tag, body.as_slice(), out);
    }
    reaction.event
}

impl Requester {
    /// Handles a received packet. The packets of the next request, if one is sent, overwrite `out`; if none is, `out`
    /// is empty. `ReqIgnored` lists the checks of a packet and its body in order; after `Ignored` the same request is
    /// outstanding, and nothing has changed but the count of packets and an unfinished body. Never allocates (read, not
    /// proved).
    pub fn on_packet(&mut self, packet: &[u8], out: &mut PacketList) -> Event
        ensures { (a : Requesting) → StandsFor self.old a
            → IsGiven (requester_given a packet.now) result out.new self.new }
    {
        out.clear();
        if self.taken >= WEAR_LIMIT {
            return Event::Ignored(ReqIgnored::Worn);
        }
        self.taken += 1;
        match Packet::parse(packet) {
            Ok(view) => self.on_view(view, out),
            Err(fault) => Event::Ignored(ReqIgnored::Packet(fault)),
        }
    }

    // Handles a parsed packet that was already counted.
    fn on_view(&mut self, view: PacketView<'_>, out: &mut PacketList) -> Event
        requires sequence { view.sequence < 4 }
        requires tag { view.tag < 8 }
        ensures { (a : Requesting) (packet : List ℕ) → parsed packet ≡ Ok (view_of view.entry)
            → out.old ≡ [] → IsCounted self.old a
            → IsGiven (hears_packet a packet (parsed packet)) result out.new self.new }
    {
        match self.assembler.take(view) {
            Fed::Whole(route, bytes) => hear(
                &mut self.asking,
                &self.part,
                route,
                bytes,
                &mut self.body,
                out,
            ),
            Fed::More => Event::More,
            Fed::Dropped(cause) => Event::Ignored(ReqIgnored::Dropped(cause)),
        }
    }
}
