ghost use Rattle.std.specs.Prelude.{◌≡◌};
ghost use Rattle.spdm_grammar.specs.declared.names.TheConstants.{MAX_MESSAGE_SIZE};

use capture_bodies::{Came, LargePart, collect};
use chunking::Collector;
use spdm_basis::Frame;
use spdm_grammar::names::MAX_MESSAGE_SIZE;

/// The large message that comes in records to a requester.
#[derive(Drop)]
pub struct InnerChunks {
    pub(crate) collector: Collector,
    pub(crate) ghost most: { collector.max ≡ MAX_MESSAGE_SIZE },
}

impl InnerChunks {
    ghost use Rattle.std.specs.Prelude.{◌≡◌, [], List, false};
    ghost use Rattle.capture_bodies.specs.Answers.{part_as};
    ghost use Rattle.capture_bodies.specs.Collecting.{chunk_of, large_by, with_chunk};
    ghost use Rattle.capture_bodies.specs.Completing.Completed.{Body};
    ghost use Rattle.chunking.specs.Collecting.{accepted_of};
    ghost use Rattle.chunking.specs.Keeping.{StandsFor};
    ghost use Rattle.spdm_grammar.specs.Message.{ChunkMessage};
    ghost use Rattle.spdm_grammar.specs.declared.names.TheConstants.{MAX_MESSAGE_SIZE};

    /// To which no chunk came yet.
    pub(crate) fn new() -> InnerChunks
        ensures { StandsFor result.collector [] }
    {
        InnerChunks {
            collector: Collector::new(MAX_MESSAGE_SIZE),
        }
    }

    /// The inner message of an answer.
    pub(crate) fn take(&mut self, inner: &[u8], whole: &mut Frame) -> LargePart
        ensures large { (given : List ChunkMessage)
            → StandsFor self.old.collector (accepted_of MAX_MESSAGE_SIZE given)
            → part_as result whole.new ≡ large_by (accepted_of MAX_MESSAGE_SIZE given)
            (chunk_of (Body false inner.now)) }
        ensures stands { (given : List ChunkMessage)
            → StandsFor self.old.collector (accepted_of MAX_MESSAGE_SIZE given)
            → StandsFor self.new.collector (accepted_of MAX_MESSAGE_SIZE
            (with_chunk (chunk_of (Body false inner.now)) given)) }
    {
        collect(Came::Body(false), inner, &mut self.collector, whole)
    }
}
