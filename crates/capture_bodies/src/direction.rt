ghost use Rattle.std.specs.Prelude.{◌≡◌, ◌≤◌, ◌<◌, ◌∷◌, List};
ghost use Rattle.capture_bodies.specs.Answers.{came_as, part_as};
ghost use Rattle.capture_bodies.specs.Collecting.{chunk_of, large_by, with_chunk};
ghost use Rattle.chunking.specs.Collecting.{accepted_of};
ghost use Rattle.chunking.specs.Keeping as keeping;
ghost use Rattle.spdm_grammar.specs.Message.{ChunkMessage};
ghost use Rattle.capture_bodies.specs.Completing.{completed_by};
ghost use Rattle.mctp_framing.specs.Assembling as assembling;
ghost use Rattle.mctp_framing.specs.Gathering.{gathered};
ghost use Rattle.mctp_framing.specs.Packet.{PacketFields, view_of};
ghost use Rattle.spdm_grammar.specs.declared.names.TheConstants.{MAX_BODY_SIZE, MAX_MESSAGE_SIZE};

use crate::chunks::{chunk_of, take_chunk};
use crate::{Came, LargePart};
use chunking::Collector;
use mctp_framing::{Assembler, Fed, PacketView};
use spdm_basis::{Buffer, Eid, Frame, OutOfMemory};
use spdm_grammar::names::{MAX_BODY_SIZE, MAX_MESSAGE_SIZE};
use std::alloc::Global;

/// A body: up to 4,161 bytes.
pub type BodyBuffer = Buffer<MAX_BODY_SIZE>;

/// What goes from one end of a capture to another: the body that is gathered, and the large message that is collected.
#[derive(Drop)]
pub struct Direction {
    pub(crate) assembler: Assembler,
    pub(crate) collector: Collector,
    pub(crate) ghost limit: { assembler.receiver.limit ≡ MAX_BODY_SIZE },
    pub(crate) ghost most: { collector.max ≡ MAX_MESSAGE_SIZE },
}

// Gives a packet to an assembler. A body that it completes overwrites `body`.
fn gather(assembler: &mut Assembler, view: PacketView<'_>, body: &mut BodyBuffer) -> Came
    requires sequence { view.sequence < 4 }
    requires tag { view.tag < 8 }
    requires limit { assembler.old.receiver.limit ≤ MAX_BODY_SIZE }
    ensures came { (given : List PacketFields) → assembling.StandsFor assembler.old given
        → came_as result body.new
        ≡ completed_by (gathered assembler.old.receiver given (view_of view.entry)) }
    ensures receiver { assembler.new.receiver ≡ assembler.old.receiver }
    ensures stands { (given : List PacketFields) → assembling.StandsFor assembler.old given
        → assembling.StandsFor assembler.new (view_of view.entry ∷ given) }
{
    match assembler.take(view) {
        Fed::Whole(route, whole) => {
            let _ = body.replace(whole);
            Came::Body(route.owner)
        }
        Fed::More => Came::More,
        Fed::Dropped(cause) => Came::Dropped(cause),
    }
}

/// Gives the chunk in a body, if it has one, to a collector of messages of at most 4,096 bytes. A large message that is whole with it
/// overwrites `whole`.
pub fn collect(came: Came, body: &[u8], collector: &mut Collector, whole: &mut Frame) -> LargePart
    requires { collector.old.max ≡ MAX_MESSAGE_SIZE }
    ensures answer { (accepted : List ChunkMessage) → keeping.StandsFor collector.old accepted
        → part_as result whole.new ≡ large_by accepted (chunk_of (came_as came body.now)) }
    ensures max { collector.new.max ≡ MAX_MESSAGE_SIZE }
    ensures stands { (given : List ChunkMessage)
        → keeping.StandsFor collector.old (accepted_of MAX_MESSAGE_SIZE given)
        → keeping.StandsFor collector.new (accepted_of MAX_MESSAGE_SIZE
        (with_chunk (chunk_of (came_as came body.now)) given)) }
{
    let Came::Body(owner) = came else {
        return LargePart::NoChunk;
    };
    match chunk_of(owner, body) {
        Some(chunk) => take_chunk(collector, chunk, whole),
        None => LargePart::NoChunk,
    }
}

impl Direction {
    ghost use Rattle.std.specs.Prelude.{◌≡◌, ◌≤◌, ◌<◌, ◌∷◌, [], ℕ, List, Ok, IfOk};
    ghost use Rattle.spdm_grammar.specs.declared.names.TheConstants.{MAX_BODY_SIZE, MAX_MESSAGE_SIZE};
    ghost use Rattle.capture_bodies.specs.Answers.{came_as, part_as};
    ghost use Rattle.capture_bodies.specs.Collecting.{large_between};
    ghost use Rattle.capture_bodies.specs.Completing.{completed_by};
    ghost use Rattle.capture_bodies.specs.Keeping.{StandsFor};
    ghost use Rattle.mctp_framing.specs.Packet.{parsed, view_of};
    ghost use Rattle.spdm_machine.specs.Packets.{gathered_from};

    // What went from one end to another where no packet came yet.
    pub(crate) fn new(alloc: Global, to: Eid, from: Eid) -> Result<Direction, OutOfMemory>
        ensures { IfOk result (λ direction. StandsFor direction to.number from.number []) }
    {
        Ok(Direction {
            assembler: Assembler::new(alloc, to, from, MAX_BODY_SIZE)?,
            collector: Collector::new(MAX_MESSAGE_SIZE as u32),
        })
    }

    // A packet came. A body that it completes overwrites `body`, and a large message `whole`.
    #[tactic(auto, unfolding(spdm_machine::specs::Packets::gathered_from))]
    pub(crate) fn take(
        &mut self,
        view: PacketView<'_>,
        body: &mut BodyBuffer,
        whole: &mut Frame,
    ) -> (Came, LargePart)
        requires sequence { view.sequence < 4 }
        requires tag { view.tag < 8 }
        ensures came { (to from : ℕ) (older : List (List ℕ)) → StandsFor self.old to from older
            → came_as result.0 body.new
            ≡ completed_by (gathered_from to from older (view_of view.entry)) }
        ensures large { (to from : ℕ) (older : List (List ℕ)) → StandsFor self.old to from older
            → part_as result.1 whole.new ≡ large_between to from older
            (completed_by (gathered_from to from older (view_of view.entry))) }
        ensures stands { (to from : ℕ) (older : List (List ℕ)) (packet : List ℕ)
            → StandsFor self.old to from older → parsed packet ≡ Ok (view_of view.entry)
            → view.entry.to ≡ to → view.entry.from ≡ from
            → StandsFor self.new to from (packet ∷ older) }
    {
        let came = gather(&mut self.assembler, view, body);
        let part = collect(came, body.as_slice(), &mut self.collector, whole);
        (came, part)
    }
}
