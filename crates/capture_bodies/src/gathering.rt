ghost use Rattle.std.specs.Prelude.{◌≡◌, [], map, IfOk};
ghost use Rattle.std.specs.List.{AllByRecursion};
ghost use Rattle.capture_bodies.specs.Keeping.{Stand, eid_of, number_of};
ghost use Rattle.capture_bodies.specs.Answers.{came_as};
ghost use Rattle.capture_bodies.specs.Completing.{alone};
ghost use Rattle.mctp_framing.specs.Packet.{view_of};

use crate::{BodyBuffer, Came, Direction, LargePart};
use mctp_framing::{Packet, PacketView};
use spdm_basis::{DropCause, Eid, Frame, OutOfMemory};
use spdm_grammar::names::MAX_BODY_SIZE;
use std::alloc::Global;

/// What goes between the responder of a capture and a requester, in both directions.
#[derive(Drop)]
pub struct Pair {
    pub(crate) eid: Eid,
    pub(crate) requests: Direction,
    pub(crate) answers: Direction,
}

/// What goes between the responder of a capture and its requesters. Allocates only when constructed (read, not proved).
#[derive(Drop)]
pub struct Gathering {
    pub(crate) own: Eid,
    pub(crate) pairs: Vec<Pair>,
}

// A packet between other ends, which stands by itself. Its body overwrites `body`.
fn alone(view: PacketView<'_>, body: &mut BodyBuffer) -> Came
    ensures { came_as result body.new ≡ alone (view_of view.entry) }
{
    if !(view.start && view.end) {
        return Came::More;
    }
    if view.payload.len() > MAX_BODY_SIZE {
        return Came::Dropped(DropCause::TooLong);
    }
    let _ = body.replace(view.payload);
    Came::Body(view.owner)
}

// A requester of which no packet came yet.
fn fresh_pair(alloc: Global, own: Eid, eid: Eid) -> Result<Pair, OutOfMemory>
    ensures eid { IfOk result (λ pair. eid_of pair ≡ eid.number) }
    ensures stand { IfOk result (λ pair. Stand pair own.number (eid_of pair) []) }
{
    Ok(Pair {
        eid,
        requests: Direction::new(alloc, own, eid)?,
        answers: Direction::new(alloc, eid, own)?,
    })
}

// The requesters with these endpoints, of which no packet came yet.
fn fresh_pairs(alloc: Global, own: Eid, eids: &[Eid]) -> Result<Vec<Pair>, OutOfMemory>
    ensures eids { IfOk result (λ pairs. map eid_of pairs.items ≡ map number_of eids.now) }
    ensures stand { IfOk result (λ pairs. AllByRecursion
        (λ pair. Stand pair own.number (eid_of pair) []) pairs.items) }
{
    let Ok(mut pairs) = Vec::with_capacity(alloc, eids.len()) else {
        return Err(OutOfMemory);
    };
    for eid in eids {
        let pair = fresh_pair(alloc, own, *eid)?;
        let Ok(()) = pairs.push(pair) else {
            return Err(OutOfMemory);
        };
    }
    Ok(pairs)
}

impl Gathering {
    ghost use Rattle.std.specs.Prelude.{◌≡◌, ◌≢◌, ◌<◌, ◌∷◌, [], ℕ, List, Ok, Err, IfOk, IfSome, length, map};
    ghost use Rattle.std.specs.List.{position_from};
    ghost use Rattle.capture_bodies.specs.Answers.{came_as, part_as};
    ghost use Rattle.capture_bodies.specs.Collecting.{large, large_between, large_in};
    ghost use Rattle.capture_bodies.specs.Completing.{completed, completed_by, completed_in};
    ghost use Rattle.spdm_machine.specs.Packets.{gathered_from};
    ghost use Rattle.capture_bodies.specs.Keeping.{Keeps, has_eid, number_of};
    ghost use Rattle.mctp_framing.specs.Packet.{parsed, view_of};

    /// A responder with this endpoint and requesters with these, where no packet came yet.
    pub fn new(alloc: Global, own: Eid, eids: &[Eid]) -> Result<Gathering, OutOfMemory>
        ensures { IfOk result (λ seen. Keeps seen own.number (map number_of eids.now) []) }
    {
        Ok(Gathering {
            own,
            pairs: fresh_pairs(alloc, own, eids)?,
        })
    }

    // The place of the requester with this endpoint, if there is one.
    fn place_of(&self, eid: u8) -> Option<usize>
        ensures place { result ≡ position_from (has_eid eid) 0 self.now.pairs.items }
        ensures inside { IfSome result (λ place. place < length self.now.pairs.items) }
    {
        self.pairs.iter().position(|pair| pair.eid.number() == eid)
    }

    /// The next packet of the capture: what it completes, and what it does to a large message. A body that it completes
    /// overwrites `body`, and a large message `whole`. Bytes that are no packet complete nothing and do nothing.
    pub fn follow(
        &mut self,
        packet: &[u8],
        body: &mut BodyBuffer,
        whole: &mut Frame,
    ) -> (Came, LargePart)
        ensures came { (own : ℕ) (eids : List ℕ) (older : List (List ℕ))
            → Keeps self.old own eids older
            → came_as result.0 body.new ≡ completed_in own eids older (parsed packet.now) }
        ensures large { (own : ℕ) (eids : List ℕ) (older : List (List ℕ))
            → Keeps self.old own eids older
            → part_as result.1 whole.new ≡ large_in own eids older (parsed packet.now) }
        ensures keeps { (own : ℕ) (eids : List ℕ) (older : List (List ℕ))
            → Keeps self.old own eids older
            → Keeps self.new own eids (packet.now ∷ older) }
    {
        match Packet::parse(packet) {
            Ok(view) => self.take(view, body, whole),
            Err(_) => (Came::More, LargePart::NoChunk),
        }
    }

    // The next packet of the capture, which has these fields.
    fn take(
        &mut self,
        view: PacketView<'_>,
        body: &mut BodyBuffer,
        whole: &mut Frame,
    ) -> (Came, LargePart)
        requires sequence { view.sequence < 4 }
        requires tag { view.tag < 8 }
        ensures came { (own : ℕ) (eids : List ℕ) (older : List (List ℕ))
            → Keeps self.old own eids older
            → came_as result.0 body.new ≡ completed own eids older (view_of view.entry) }
        ensures large { (own : ℕ) (eids : List ℕ) (older : List (List ℕ))
            → Keeps self.old own eids older
            → part_as result.1 whole.new ≡ large own eids older (view_of view.entry) }
        ensures keeps { (own : ℕ) (eids : List ℕ) (older : List (List ℕ)) (packet : List ℕ)
            → Keeps self.old own eids older → parsed packet ≡ Ok (view_of view.entry)
            → Keeps self.new own eids (packet ∷ older) }
    {
        if view.to == view.from {
            (alone(view, body), LargePart::NoChunk)
        } else if view.to == self.own.number() {
            match self.place_of(view.from) {
                Some(place) => self.take_request(place, view, body, whole),
                None => (alone(view, body), LargePart::NoChunk),
            }
        } else if view.from == self.own.number() {
            match self.place_of(view.to) {
                Some(place) => self.take_answer(place, view, body, whole),
                None => (alone(view, body), LargePart::NoChunk),
            }
        } else {
            (alone(view, body), LargePart::NoChunk)
        }
    }

    // The next packet, to the responder from the requester at this place.
    fn take_request(
        &mut self,
        place: usize,
        view: PacketView<'_>,
        body: &mut BodyBuffer,
        whole: &mut Frame,
    ) -> (Came, LargePart)
        requires sequence { view.sequence < 4 }
        requires tag { view.tag < 8 }
        requires inside { place < length self.old.pairs.items }
        requires first { position_from (has_eid view.from) 0 self.old.pairs.items ≡ Some place }
        requires to { view.to ≡ self.old.own.number }
        requires other { view.from ≢ self.old.own.number }
        ensures came { (own : ℕ) (eids : List ℕ) (older : List (List ℕ))
            → Keeps self.old own eids older
            → came_as result.0 body.new
            ≡ completed_by (gathered_from view.entry.to view.entry.from older
            (view_of view.entry)) }
        ensures large { (own : ℕ) (eids : List ℕ) (older : List (List ℕ))
            → Keeps self.old own eids older
            → part_as result.1 whole.new ≡ large_between view.entry.to view.entry.from older
            (completed_by (gathered_from view.entry.to view.entry.from older
            (view_of view.entry))) }
        ensures keeps { (own : ℕ) (eids : List ℕ) (older : List (List ℕ)) (packet : List ℕ)
            → Keeps self.old own eids older → parsed packet ≡ Ok (view_of view.entry)
            → Keeps self.new own eids (packet ∷ older) }
    {
        self.pairs[place].requests.take(view, body, whole)
    }

    // The next packet, from the responder to the requester at this place.
    fn take_answer(
        &mut self,
        place: usize,
        view: PacketView<'_>,
        body: &mut BodyBuffer,
        whole: &mut Frame,
    ) -> (Came, LargePart)
        requires sequence { view.sequence < 4 }
        requires tag { view.tag < 8 }
        requires inside { place < length self.old.pairs.items }
        requires first { position_from (has_eid view.to) 0 self.old.pairs.items ≡ Some place }
        requires from { view.from ≡ self.old.own.number }
        requires other { view.to ≢ self.old.own.number }
        ensures came { (own : ℕ) (eids : List ℕ) (older : List (List ℕ))
            → Keeps self.old own eids older
            → came_as result.0 body.new
            ≡ completed_by (gathered_from view.entry.to view.entry.from older
            (view_of view.entry)) }
        ensures large { (own : ℕ) (eids : List ℕ) (older : List (List ℕ))
            → Keeps self.old own eids older
            → part_as result.1 whole.new ≡ large_between view.entry.to view.entry.from older
            (completed_by (gathered_from view.entry.to view.entry.from older
            (view_of view.entry))) }
        ensures keeps { (own : ℕ) (eids : List ℕ) (older : List (List ℕ)) (packet : List ℕ)
            → Keeps self.old own eids older → parsed packet ≡ Ok (view_of view.entry)
            → Keeps self.new own eids (packet ∷ older) }
    {
        self.pairs[place].answers.take(view, body, whole)
    }
}
