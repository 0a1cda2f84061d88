ghost use Rattle.std.specs.Prelude.{◌≡◌, ◌≤◌, ◌<◌, ◌++◌, ◌∷◌, [], ℕ, List, length, IfErr, OnOk, OnErr};
ghost use Rattle.std.specs.Option.{option_map};
ghost use Rattle.world_machine.specs.World.{SentPacket, first_waiting, packet_of, stopped_of, waiting};
ghost use Rattle.link_world.specs.Sent.{AreWithin, IsCause, NoneWaits, packet_limit, sent_of, waits_of};

use std::alloc::Global;
use std::marker::Model;
use thiserror::Error;

// The capacity of a link, in packets.
const PACKET_LIMIT: usize = 65_536;

/// Why a packet was not sent.
#[derive(Clone, Copy, Debug, PartialEq, Eq, Error)]
pub enum SendFault {
    /// 65,536 packets were sent before.
    #[error("a full link")]
    LinkFull,
    #[error("out of memory")]
    OutOfMemory,
}

// Where a packet stands among the bytes, and whether it waits to be given to its end.
#[derive(Clone, Copy)]
struct Place {
    start: usize,
    end: usize,
    waits: bool,
}

/// All packets that were sent over a link, in order, at most 65,536 of them, and which of them wait for delivery.
/// Packets are numbered from 1. In contracts, a list of `SentPacket` of world_machine.
#[derive(Drop)]
pub struct SentPackets {
    bytes: Vec<u8>,
    places: Vec<Place>,
    // None of the first `passed` packets waits.
    passed: usize,
}

impl Model for SentPackets {
    ghost Value = { List SentPacket };

    ghost view = { λ s. sent_of s.bytes.items s.places.items };

    ghost invariant = { λ s. AreWithin (length s.bytes.items) s.places.items
        × NoneWaits s.passed s.places.items × (s.passed ≤ length s.places.items)
        × (length s.places.items ≤ packet_limit) };
}

impl SentPackets {
    /// No packets. Never allocates (read, not proved).
    pub fn new(alloc: Global) -> SentPackets
        ensures { result ≡ [] }
    {
        SentPackets {
            bytes: Vec::new(alloc),
            places: Vec::new(alloc),
            passed: 0,
        }
    }

    /// The number of packets sent.
    pub fn count(&self) -> u32
        ensures { result ≡ length self.now }
    {
        self.places.len() as u32
    }

    /// Sends a packet, which waits then. On a fault nothing changes.
    pub fn push(&mut self, packet: &[u8]) -> Result<(), SendFault>
        ensures sent { OnOk result (self.new ≡ self.old ++ waiting packet.now ∷ []) }
        ensures room { OnOk result (length self.old < packet_limit) }
        ensures fault { IfErr result (λ fault. IsCause self.old fault) }
        ensures kept { OnErr result (self.new ≡ self.old) }
    {
        if self.places.len() == PACKET_LIMIT {
            return Err(SendFault::LinkFull);
        }
        let start = self.bytes.len();
        if self.bytes.extend_from_slice(packet).is_err() {
            return Err(SendFault::OutOfMemory);
        }
        let place = Place {
            start,
            end: self.bytes.len(),
            waits: true,
        };
        if self.places.push(place).is_err() {
            self.bytes.truncate(start);
            return Err(SendFault::OutOfMemory);
        }
        Ok(())
    }

    /// The packet with this number.
    pub fn get(&self, number: u32) -> Option<&[u8]>
        ensures { option_map (λ packet. packet.now) result ≡ packet_of number self.now }
    {
        let place = self.places.get((number as usize).checked_sub(1)?)?;
        self.bytes.get(place.start..place.end)
    }

    /// Whether the packet with this number waits for delivery. `false` if there is none.
    pub fn is_waiting(&self, number: u32) -> bool
        ensures { result ≡ waits_of number self.now }
    {
        match (number as usize).checked_sub(1) {
            Some(index) => match self.places.get(index) {
                Some(place) => place.waits,
                None => false,
            },
            None => false,
        }
    }

    /// Marks the packet with this number, if there is one, as no longer waiting.
    pub fn stop(&mut self, number: u32)
        ensures { self.new ≡ stopped_of number self.old }
    {
        if let Some(index) = (number as usize).checked_sub(1) {
            if let Some(place) = self.places.get_mut(index) {
                place.waits = false;
            }
        }
    }

    /// The least number of a waiting packet. The scan resumes where the last one ended.
    pub fn first_waiting(&mut self) -> Option<u32>
        ensures first { result ≡ first_waiting self.old }
        ensures same { self.new ≡ self.old }
    {
        while let Some(place) = self.places.get(self.passed) {
            if place.waits {
                return Some(self.passed as u32 + 1);
            }
            self.passed += 1;
        }
        None
    }
}
