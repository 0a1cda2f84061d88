ghost use Rattle.std.specs.Prelude.{◌≡◌, [], map, IfOk};
ghost use Rattle.responder.specs.SetUp.{IsPart, known_of};
ghost use Rattle.responder.specs.Standing.{ArePeers};
ghost use Rattle.responder_machine.specs.Responding.{new_connection};
ghost use Rattle.responder_machine.specs.Setup.{RspPart};

use crate::part::Part;
use crate::peer::Peer;
use crate::room::Room;
use crate::shared::Shared;
use crate::{RspConfig, RspConfigFault};
use hmac_hkdf::DrawStream;
use mctp_framing::{Packet, PacketList, PacketView};
use spdm_basis::{Buffer, DropCause, OutOfMemory};
use spdm_grammar::{Heard, RspIgnored};
use std::alloc::Global;

// The lifetime limit of a responder, in packets.
pub(crate) const WEAR_LIMIT: u64 = 1_099_511_627_776;

/// A responder with a connection for each known requester. Allocates only when constructed (read, not proved).
#[derive(Drop)]
pub struct Responder {
    pub(crate) part: Part,
    pub(crate) shared: Shared,
    // The number of packets received.
    pub(crate) given: u64,
    // The requesters, in the order of the configuration.
    pub(crate) peers: Vec<Peer>,
}

// The initial state of the requesters.
fn peers_of(alloc: Global, part: &Part, config: &RspConfig<'_>) -> Result<Vec<Peer>, OutOfMemory>
    ensures { (p : RspPart) → IsPart part.now p
        → IfOk result (λ peers. ArePeers peers.items p []
        (map (new_connection p) (map known_of config.now.known.now))) }
{
    let Ok(mut peers) = Vec::with_capacity(alloc, config.known.len()) else {
        return Err(OutOfMemory);
    };
    for known in config.known {
        let Ok(()) = peers.push(Peer::new(alloc, part, known)?) else {
            return Err(OutOfMemory);
        };
    }
    Ok(peers)
}

impl Responder {
    ghost use Rattle.std.specs.Prelude.{◌≡◌, ◌<◌, ◌≤◌, ◌*◌, ◌-◌, ◌^◌, [], false, List, ℕ, None, Ok, IfErr, IfOk, IfSome, OnOk, length};
    ghost use Rattle.mctp_framing.specs.Packet.{parsed, view_of};
    ghost use Rattle.responder.specs.Config.{IsCause, config_fault};
    ghost use Rattle.responder.specs.SetUp.{end_of};
    ghost use Rattle.responder.specs.Standing.{IsStep, StandsFor, has_eid};
    ghost use Rattle.responder.specs.Unharmed.{AreOthersKept, IsHarmless};
    ghost use Rattle.std.specs.List.{position_from};
    ghost use Rattle.responder_machine.specs.Responding.{Responding, hears_packet, is_worn, new_responding, next_draw, responder_hears};

    /// A responder in its initial state. `RspConfigFault` lists the faults in the order of the checks.
    pub fn new(
        alloc: Global,
        config: &RspConfig<'_>,
        seed: [u8; 32],
    ) -> Result<Responder, RspConfigFault>
        ensures stands { IfOk result
            (λ responder. StandsFor responder (new_responding (end_of config.now seed 0))) }
        ensures sound { OnOk result (config_fault config.now ≡ None) }
        ensures fault { IfErr result (λ fault. IsCause config.now fault) }
    {
        Responder::resume(alloc, config, seed, 0)
    }

    /// A responder in its initial state. `boot` is the number of earlier boots with this seed, at most 2^24 - 2. Each
    /// boot uses random values that no other boot uses. Faults as for `new`.
    pub fn resume(
        alloc: Global,
        config: &RspConfig<'_>,
        seed: [u8; 32],
        boot: u32,
    ) -> Result<Responder, RspConfigFault>
        requires { boot ≤ 2 ^ 24 - 2 }
        ensures stands { IfOk result (λ responder. StandsFor responder
            (new_responding (end_of config.now seed (boot * 2 ^ 40)))) }
        ensures sound { OnOk result (config_fault config.now ≡ None) }
        ensures fault { IfErr result (λ fault. IsCause config.now fault) }
    {
        let part = Part::new(alloc, config)?;
        let Ok(room) = Room::new(alloc) else {
            return Err(RspConfigFault::OutOfMemory);
        };
        let Ok(peers) = peers_of(alloc, &part, config) else {
            return Err(RspConfigFault::OutOfMemory);
        };
        let draws = DrawStream::from_number(seed, u64::from(boot) * WEAR_LIMIT);
        Ok(Responder {
            part,
            shared: Shared {
                draws,
                last: Buffer::new(),
                room,
            },
            given: 0,
            peers,
        })
    }

    /// Handles a received packet. The response packets overwrite `out`. Never allocates (read, not proved). A refused
    /// request changes nothing in the sessions but the record numbers, the stored response and the clock of the session
    /// that its record names. After `Unopened`, `Same`, `More` and `Ignored` no connection has changed. Whatever is
    /// reported, the connections with other endpoints than the source of the packet stay as they were, and so do their
    /// unfinished messages.
    pub fn on_packet(&mut self, packet: &[u8], out: &mut PacketList) -> Heard
        ensures step { (r : Responding) → StandsFor self.old r
            → IsStep (responder_hears r packet.now) result out.new self.new }
        ensures harmless { (r : Responding) → StandsFor self.old r
            → IsHarmless r packet.now result }
        ensures others { (r : Responding) → StandsFor self.old r
            → AreOthersKept r packet.now self.new }
    {
        out.clear();
        if self.given >= WEAR_LIMIT {
            return Heard::Ignored(RspIgnored::Worn);
        }
        match Packet::parse(packet) {
            Ok(view) => self.on_view(view, out),
            Err(fault) => {
                self.given += 1;
                Heard::Ignored(RspIgnored::Packet(fault))
            }
        }
    }

    // The index of the requester with this endpoint ID.
    pub(crate) fn place_of(&self, eid: u8) -> Option<usize>
        ensures place { result ≡ position_from (has_eid eid) 0 self.now.peers.items }
        ensures inside { IfSome result (λ place. place < length self.now.peers.items) }
    {
        self.peers
            .iter()
            .position(|peer| peer.known.eid.number() == eid)
    }

    // Handles a packet below the lifetime limit.
    fn on_view(&mut self, view: PacketView<'_>, out: &mut PacketList) -> Heard
        requires sequence { view.sequence < 4 }
        requires tag { view.tag < 8 }
        requires fresh { self.old.given < 2 ^ 40 }
        ensures { (r : Responding) (packet : List ℕ) → parsed packet ≡ Ok (view_of view.entry)
            → out.old ≡ [] → StandsFor self.old r
            → IsStep (hears_packet r (next_draw r) packet (parsed packet)) result out.new self.new }
    {
        self.given += 1;
        if view.to != self.part.eid.number() {
            return Heard::Ignored(RspIgnored::Dropped(DropCause::NotOurs));
        }
        match self.place_of(view.from) {
            Some(place) => match self.peers.get_mut(place) {
                Some(peer) => peer.on_packet(&self.part, &mut self.shared, view, out),
                None => unreachable!(),
            },
            None => Heard::Ignored(RspIgnored::UnknownPeer),
        }
    }
}
