ghost use Rattle.std.specs.Prelude.{◌≡◌, ◌<◌, ◌≤◌, ◌+◌, ◌++◌, ◌∷◌, ◌↔◌, [], length, slice_get, vec_capacity, IfOk, IsTrue};
ghost use Rattle.std.specs.Option.{option_copied};
ghost use Rattle.mctp_framing.specs.Cutting.{packets_of, route_of};
ghost use Rattle.mctp_framing.specs.Spans.{span_of, total_len};

use crate::{Route, cut};
use spdm_basis::OutOfMemory;
use std::alloc::Global;
use std::marker::Model;

/// The capacity of a list, in packets.
const MAX_PACKETS: usize = 72;

/// The capacity of a list, in bytes.
const MAX_BYTES: usize = 8192;

/// The packets of at most one message, stored contiguously in memory allocated at construction. In contracts, a list of
/// lists of bytes.
#[derive(Drop)]
pub struct PacketList {
    bytes: Vec<u8>,
    spans: Vec<Span>,
}

// Where a packet begins and ends.
#[derive(Clone, Copy, Debug)]
pub(crate) struct Span {
    start: usize,
    end: usize,
}

impl Model for PacketList {
    ghost use Rattle.std.specs.Prelude.{◌≡◌, ◌≤◌, List, ℕ, length, vec_capacity};
    ghost use Rattle.mctp_framing.specs.Spans.{AreWithin, packets_at, total_len};

    ghost Value = { List (List ℕ) };

    ghost view = { λ l. packets_at l.bytes.items l.spans.items };

    ghost invariant = { λ l. (72 ≤ vec_capacity l.spans) × (8192 ≤ vec_capacity l.bytes)
        × (length l.spans.items ≤ 72) × (length l.bytes.items ≤ 8192)
        × AreWithin (length l.bytes.items) l.spans.items
        × (total_len (packets_at l.bytes.items l.spans.items) ≡ length l.bytes.items) };
}

impl PacketList {
    /// An empty list. Allocates room for 72 packets and 8,192 bytes.
    pub fn new(alloc: Global) -> Result<PacketList, OutOfMemory>
        ensures { IfOk result (λ list. list ≡ []) }
    {
        let Ok(bytes) = Vec::with_capacity(alloc, MAX_BYTES) else {
            return Err(OutOfMemory);
        };
        let Ok(spans) = Vec::with_capacity(alloc, MAX_PACKETS) else {
            return Err(OutOfMemory);
        };
        Ok(PacketList { bytes, spans })
    }

    /// The number of packets.
    pub fn len(&self) -> usize
        ensures { result ≡ length self.now }
    {
        self.spans.len()
    }

    /// Whether there is none.
    pub fn is_empty(&self) -> bool
        ensures { IsTrue result ↔ (self.now ≡ []) }
    {
        self.spans.is_empty()
    }

    /// The packet of this index, and `None` exactly when the index is not below the count.
    pub fn get(&self, index: usize) -> Option<&[u8]>
        ensures { option_copied result ≡ slice_get self.now index }
    {
        let span = self.spans.get(index)?;
        Some(&self.bytes[span.start..span.end])
    }

    /// Removes all packets.
    pub fn clear(&mut self)
        ensures { self.new ≡ [] }
    {
        self.bytes.clear();
        self.spans.clear();
    }

    /// Appends a packet. Never allocates (read, not proved).
    pub fn push(&mut self, packet: &[u8])
        requires packets { length self.old < 72 }
        requires bytes { total_len self.old + length packet.now ≤ 8192 }
        ensures { self.new ≡ self.old ++ packet.now ∷ [] }
    {
        let span = append(&mut self.bytes, packet);
        add(&mut self.spans, span);
    }
}

impl PacketList {
    /// Replaces the packets by those of a message body, as `cut` gives them. Never allocates (read, not proved). The
    /// body has at most 4,161 bytes, a secured record with its message type.
    pub fn fill(&mut self, body: &[u8], unit: usize, route: Route)
        requires filled { 0 < length body.now }
        requires fits { length body.now ≤ 4161 }
        requires low { 64 ≤ unit }
        requires high { unit ≤ 1024 }
        ensures { self.new ≡ packets_of (route_of route) unit body.now }
    {
        self.clear();
        for packet in cut(body, unit, route) {
            self.push(packet.as_slice());
        }
    }
}

// Adds bytes for which there is room, and returns where they are.
fn append(bytes: &mut Vec<u8>, more: &[u8]) -> Span
    requires { length bytes.old.items + length more.now ≤ vec_capacity bytes.old }
    ensures items { bytes.new.items ≡ bytes.old.items ++ more.now }
    ensures capacity { vec_capacity bytes.old ≤ vec_capacity bytes.new }
    ensures span { result ≡ span_of bytes.old.items more.now }
{
    let start = bytes.as_slice().len();
    let _ = bytes.extend_from_slice(more);
    Span {
        start,
        end: start + more.len(),
    }
}

// Adds a span for which there is room.
fn add(spans: &mut Vec<Span>, span: Span)
    requires { length spans.old.items < vec_capacity spans.old }
    ensures items { spans.new.items ≡ spans.old.items ++ span ∷ [] }
    ensures capacity { vec_capacity spans.old ≤ vec_capacity spans.new }
{
    let _ = spans.push(span);
}
