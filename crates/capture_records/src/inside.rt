ghost use Rattle.std.specs.Prelude.{◌≡◌};
ghost use Rattle.capture_records.specs.Inside.{answered};

use crate::inner_chunks::InnerChunks;
use crate::{RecordShown, Way};
use capture_bodies::LargePart;
use key_schedule::Direction;
use script_text::ScriptConfig;
use spdm_basis::{Frame, OutOfMemory};
use std::alloc::Global;

/// The large messages that come in records, of each requester.
#[derive(Drop)]
pub struct Inside {
    pub(crate) all: Vec<InnerChunks>,
}

// The place of the requester to which a way leads.
fn answered(way: Option<Way>) -> Option<usize>
    ensures { result ≡ answered way }
{
    match way {
        Some(way) => match way.direction {
            Direction::Request => None,
            Direction::Response => Some(way.place),
        },
        None => None,
    }
}

impl Inside {
    ghost use Rattle.std.specs.Prelude.{◌≡◌, ◌<◌, ◌∷◌, [], ℕ, List, false, IfOk, Some, length};
    ghost use Rattle.capture_bodies.specs.Answers.{part_as};
    ghost use Rattle.capture_bodies.specs.Collecting.{chunk_of, large_by};
    ghost use Rattle.capture_bodies.specs.Completing.Completed.{Body};
    ghost use Rattle.capture_records.specs.Ends.{way_in};
    ghost use Rattle.capture_records.specs.Hearing.{record_in};
    ghost use Rattle.capture_records.specs.Inside.{Collects, answered, chunk_inside, chunks_to, inside_in};
    ghost use Rattle.capture_records.specs.Showing.{seen_as};
    ghost use Rattle.chunking.specs.Collecting.{accepted_of};
    ghost use Rattle.mctp_framing.specs.Packet.{parsed};
    ghost use Rattle.script_text.specs.declared.configuration.config.ScriptConfig.{ScriptConfig};
    ghost use Rattle.spdm_grammar.specs.declared.names.TheConstants.{MAX_MESSAGE_SIZE};

    /// Where no packet came yet.
    pub fn new(alloc: Global, config: &ScriptConfig) -> Result<Inside, OutOfMemory>
        ensures { IfOk result (λ inside. Collects inside config.now []) }
    {
        let requesters = config.requesters.as_slice();
        let mut all = Vec::new(alloc);
        for _ in requesters {
            let Ok(()) = all.push(InnerChunks::new()) else {
                return Err(OutOfMemory);
            };
        }
        Ok(Inside { all })
    }

    // The inner message of an answer to the requester at a place.
    fn collect_at(&mut self, place: usize, inner: &[u8], whole: &mut Frame) -> LargePart
        ensures large { (config : ScriptConfig) (older : List (List ℕ))
            → Collects self.old config older → place < length config.requesters
            → part_as result whole.new
            ≡ large_by (accepted_of MAX_MESSAGE_SIZE (chunks_to config place older))
            (chunk_of (Body false inner.now)) }
        ensures collects { (config : ScriptConfig) (older : List (List ℕ)) (packet : List ℕ)
            → Collects self.old config older → place < length config.requesters
            → answered (way_in config (parsed packet)) ≡ Some place
            → chunk_inside (record_in config older packet) ≡ chunk_of (Body false inner.now)
            → Collects self.new config (packet ∷ older) }
    {
        if place >= self.all.len() {
            return LargePart::NoChunk;
        }
        self.all[place].take(inner, whole)
    }

    // An answer to the requester at a place, of which this is shown.
    fn take_answer(
        &mut self,
        place: usize,
        shown: RecordShown,
        inner: &[u8],
        whole: &mut Frame,
    ) -> LargePart
        ensures large { (config : ScriptConfig) (older : List (List ℕ))
            → Collects self.old config older → place < length config.requesters
            → part_as result whole.new
            ≡ large_by (accepted_of MAX_MESSAGE_SIZE (chunks_to config place older))
            (chunk_inside (seen_as shown inner.now)) }
        ensures collects { (config : ScriptConfig) (older : List (List ℕ)) (packet : List ℕ)
            → Collects self.old config older → place < length config.requesters
            → answered (way_in config (parsed packet)) ≡ Some place
            → seen_as shown inner.now ≡ record_in config older packet
            → Collects self.new config (packet ∷ older) }
    {
        match shown {
            RecordShown::Open { .. } => self.collect_at(place, inner, whole),
            RecordShown::NoRecord => LargePart::NoChunk,
            RecordShown::NoSession => LargePart::NoChunk,
            RecordShown::Closed(_) => LargePart::NoChunk,
        }
    }

    /// The next packet, of which this is shown: what its record does to a large message. One that is whole overwrites `whole`.
    pub fn follow(
        &mut self,
        way: Option<Way>,
        shown: RecordShown,
        inner: &[u8],
        whole: &mut Frame,
    ) -> LargePart
        ensures large { (config : ScriptConfig) (older : List (List ℕ)) (packet : List ℕ)
            → Collects self.old config older → way ≡ way_in config (parsed packet)
            → seen_as shown inner.now ≡ record_in config older packet
            → part_as result whole.new ≡ inside_in config older packet }
        ensures collects { (config : ScriptConfig) (older : List (List ℕ)) (packet : List ℕ)
            → Collects self.old config older → way ≡ way_in config (parsed packet)
            → seen_as shown inner.now ≡ record_in config older packet
            → Collects self.new config (packet ∷ older) }
    {
        match answered(way) {
            Some(place) => self.take_answer(place, shown, inner, whole),
            None => LargePart::NoChunk,
        }
    }
}
