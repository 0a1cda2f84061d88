ghost use Rattle.std.specs.Prelude.{◌≡◌, ◌<◌, ◌≤◌, ◌+◌, [], ◌∷◌, ◌++◌, None, List, length, IfOk};
ghost use Rattle.mctp_framing.specs.Cutting.{route_of};
ghost use Rattle.mctp_framing.specs.Packet.{PacketFields, view_of};
ghost use Rattle.mctp_framing.specs.Gathering.{answer_from, broken_rule, gathered};
ghost use Rattle.mctp_framing.specs.Assembling.{Assembly, StandsFor, after_first, after_later, after_packet, answer_later, answer_to, grown};
ghost use Rattle.mctp_framing.specs.Answers.{fed_answer, step_answer, whole_of};
ghost use Rattle.std.specs.Borrow.{sem};
ghost use Rattle.mctp_framing.specs.Lending.{RestsWith};

use crate::body_buffer::BodyBuffer;
use crate::unfinished::{Unfinished, broken_first_rule};
use crate::{PacketView, Route};
use spdm_basis::{DropCause, Eid, OutOfMemory};
use std::alloc::Global;
use std::marker::Model;

/// Assembles packets from one peer into message bodies (DSP0236, "Message assembly"). It holds at most one unfinished
/// body. In contracts, an `Assembly`.
#[derive(Drop)]
pub struct Assembler {
    pub(crate) own: Eid,
    pub(crate) peer: Eid,
    pub(crate) unfinished: Option<Unfinished>,
    pub(crate) body: BodyBuffer,
}

impl Model for Assembler {
    ghost use Rattle.mctp_framing.specs.Assembling.{Assembly};

    ghost Value = { Assembly };

    ghost view = { λ a. record {
      receiver = record { own = a.own.number; peer = a.peer.number; limit = a.body.limit };
      unfinished = a.unfinished;
      body = a.body.bytes;
    } };
}

/// The outcome of a packet.
#[derive(Clone, Copy, Debug, PartialEq, Eq)]
pub enum Fed<'a> {
    /// It completed the body with this route; its bytes are stored in the assembler.
    Whole(Route, &'a [u8]),
    /// The body is still incomplete.
    More,
    /// The packet was dropped.
    Dropped(DropCause),
}

// The outcome of a packet; a whole body is stored in the assembler.
#[derive(Clone, Copy, Debug)]
pub(crate) enum Step {
    Whole,
    More,
    Dropped(DropCause),
}

impl Assembler {
    /// An assembler in its initial state. Allocates a buffer for a body of `limit` bytes here, and nothing later (the
    /// last is read, not proved).
    pub fn new(alloc: Global, own: Eid, peer: Eid, limit: usize) -> Result<Assembler, OutOfMemory>
        ensures receiver { IfOk result
            (λ a. a.receiver ≡ record { own = own.number; peer = peer.number; limit = limit }) }
        ensures stands { IfOk result (λ a. StandsFor a []) }
    {
        Ok(Assembler {
            own,
            peer,
            unfinished: None,
            body: BodyBuffer::new(alloc, limit)?,
        })
    }

    /// Takes a packet as parsed by `Packet::parse`. Never allocates (read, not proved).
    ///
    /// Checked in this order. `NotOurs`: the destination is not the own endpoint, or the source is not the peer;
    /// nothing changes. A packet with SOM drops what was unfinished; then `WrongSize` where its payload is empty,
    /// `IntegritySet` where bit 7 of its first byte is set, `TooLong` where it is longer than the limit. A packet
    /// without SOM: `NoStart` where nothing is unfinished, or another tag or tag owner bit is; nothing changes. Then
    /// `WrongSequence` where it is not the next one, `WrongSize` where its payload is empty, longer than the first, or
    /// shorter without EOM, and `TooLong`; after these nothing is unfinished. Else the packet is added: with EOM the
    /// body is `Whole`, and without it `More` is awaited.
    pub fn take(&mut self, packet: PacketView<'_>) -> Fed<'_>
        requires sequence { packet.sequence < 4 }
        requires tag { packet.tag < 8 }
        ensures fed { (given : List PacketFields) → StandsFor self.old given
            → fed_answer result ≡ gathered self.old.receiver given (view_of packet.entry) }
        ensures fits { length (whole_of result) ≤ self.old.receiver.limit }
        // What it is once the body is given back.
        ensures* rests { sem 𝓛 (RestsWith self.entry (view_of packet.entry)) }
    {
        match self.step(packet) {
            Step::Whole => Fed::Whole(self.route(packet), self.body.as_slice()),
            Step::More => Fed::More,
            Step::Dropped(cause) => Fed::Dropped(cause),
        }
    }

    // The route of a packet for the own endpoint and from the peer.
    pub(crate) fn route(&self, packet: PacketView<'_>) -> Route
        requires { packet.tag < 8 }
        ensures { route_of result ≡ record {
          to = self.now.receiver.own;
          from = self.now.receiver.peer;
          owner = packet.entry.owner;
          tag = packet.entry.tag;
        } }
    {
        Route {
            to: self.own,
            from: self.peer,
            owner: packet.owner,
            tag: packet.tag,
        }
    }

    // Takes a packet.
    fn step(&mut self, packet: PacketView<'_>) -> Step
        requires { packet.sequence < 4 }
        ensures answer { step_answer result (view_of packet.entry) self.new.body
            ≡ answer_to self.old (view_of packet.entry) }
        ensures after { self.new ≡ after_packet self.old (view_of packet.entry) }
    {
        if packet.to != self.own.number() || packet.from != self.peer.number() {
            return Step::Dropped(DropCause::NotOurs);
        }
        if packet.start {
            return self.begin(packet);
        }
        self.go_on(packet)
    }

    // Takes a first packet. What was unfinished is dropped.
    fn begin(&mut self, packet: PacketView<'_>) -> Step
        requires { packet.sequence < 4 }
        ensures answer { step_answer result (view_of packet.entry) self.new.body
            ≡ answer_from (broken_rule self.old.receiver.limit (view_of packet.entry ∷ []))
            (view_of packet.entry) ([] ++ packet.entry.payload.now) }
        ensures after { self.new ≡ after_first self.old (view_of packet.entry) }
    {
        self.unfinished = None;
        self.body.clear();
        if let Some(cause) = broken_first_rule(packet, self.body.limit()) {
            return Step::Dropped(cause);
        }
        self.grow(packet, packet.payload.len())
    }

    // Takes a packet without SOM.
    fn go_on(&mut self, packet: PacketView<'_>) -> Step
        requires { packet.sequence < 4 }
        ensures answer { step_answer result (view_of packet.entry) self.new.body
            ≡ answer_later self.old.unfinished self.old (view_of packet.entry) }
        ensures after { self.new ≡ after_later self.old.unfinished self.old (view_of packet.entry) }
    {
        let Some(unfinished) = self.unfinished else {
            return Step::Dropped(DropCause::NoStart);
        };
        if !unfinished.goes_on_with(packet) {
            return Step::Dropped(DropCause::NoStart);
        }
        self.unfinished = None;
        let held = self.body.as_slice().len();
        if let Some(cause) = unfinished.broken_rule(packet, held, self.body.limit()) {
            return Step::Dropped(cause);
        }
        self.grow(packet, unfinished.unit)
    }

    // Adds a packet that breaks no rule.
    fn grow(&mut self, packet: PacketView<'_>, unit: usize) -> Step
        requires sequence { packet.sequence < 4 }
        requires fits { length self.old.body + length packet.payload.now ≤ self.old.receiver.limit }
        ensures answer { step_answer result (view_of packet.entry) self.new.body
            ≡ answer_from None (view_of packet.entry) (self.old.body ++ packet.entry.payload.now) }
        ensures after { self.new ≡ grown self.old (view_of packet.entry) unit }
    {
        self.body.append(packet.payload);
        if packet.end {
            self.unfinished = None;
            return Step::Whole;
        }
        self.unfinished = Some(Unfinished::after(packet, unit));
        Step::More
    }
}
