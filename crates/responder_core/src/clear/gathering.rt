ghost use Rattle.std.specs.Prelude.{◌≡◌, ◌≤◌, List, length};
ghost use Rattle.chunking.specs.Collecting.{accepted_with, collected};
ghost use Rattle.chunking.specs.Keeping as keeping;
ghost use Rattle.spdm_grammar.specs.Message.{ChunkMessage, chunk_message};
ghost use Rattle.responder_core.specs.Gathering.{gathered_as};

use chunking::{Collected, Collector};
use spdm_basis::Frame;
use spdm_grammar::{ChunkFault, ChunkView};

/// What a chunk of a large request led to.
#[derive(Clone, Copy, Debug, PartialEq, Eq)]
pub enum Gathered {
    /// It completed the request.
    Whole,
    /// The request is not whole yet.
    More,
    /// The chunk was refused, and nothing changed.
    Refused(ChunkFault),
}

/// Gives a chunk to a collector. A large request that it completes overwrites `whole`; else that stays.
pub fn gather(collector: &mut Collector, chunk: ChunkView<'_>, whole: &mut Frame) -> Gathered
    ensures answer { (accepted : List ChunkMessage) → keeping.StandsFor collector.old accepted
        → gathered_as result whole.new
        ≡ collected collector.old.max accepted (chunk_message chunk.entry) }
    ensures max { collector.new.max ≡ collector.old.max }
    ensures stands { (accepted : List ChunkMessage) → keeping.StandsFor collector.old accepted
        → keeping.StandsFor collector.new
        (accepted_with collector.old.max accepted (chunk_message chunk.entry)) }
{
    match collector.take(chunk) {
        Collected::Whole(message) => {
            let _ = whole.replace(message);
            Gathered::Whole
        }
        Collected::More => Gathered::More,
        Collected::Refused(fault) => Gathered::Refused(fault),
    }
}
