use crate::clear::gathering::{Gathered, gather};
use crate::{Connection, Requests};
use spdm_basis::Frame;
use spdm_grammar::ChunkView;

impl Requests {
    ghost use Rattle.std.specs.Prelude.{◌≡◌, List};
    ghost use Rattle.chunking.specs.Collecting.{collected};
    ghost use Rattle.responder_machine.specs.LargeMessages.{chunks_of};
    ghost use Rattle.responder_machine.specs.Setup.{RspSetup};
    ghost use Rattle.responder_machine.specs.Turn.{Turn};
    ghost use Rattle.spdm_grammar.specs.Message.{chunk_message};
    ghost use Rattle.responder_core.specs.Coming.{StandsFor};
    ghost use Rattle.responder_core.specs.Gathering.{IsCompletedBy};

    /// Whether a chunk completes the large request that arrives in chunks; that request then overwrites `whole`.
    /// Nothing changes.
    pub fn completes(&self, chunk: ChunkView<'_>, whole: &mut Frame) -> bool
        ensures { (r : RspSetup) (turns : List Turn) → StandsFor self.now r turns → IsCompletedBy
            (collected r.max (chunks_of turns) (chunk_message chunk.entry)) result whole.new }
    {
        let mut collector = self.collector.copy();
        match gather(&mut collector, chunk, whole) {
            Gathered::Whole => true,
            Gathered::More => false,
            Gathered::Refused(_) => false,
        }
    }
}

impl Connection {
    ghost use Rattle.std.specs.Prelude.{◌≡◌};
    ghost use Rattle.chunking.specs.Collecting.{collected};
    ghost use Rattle.responder_machine.specs.History.{History, clear_turns};
    ghost use Rattle.responder_machine.specs.LargeMessages.{chunks_of};
    ghost use Rattle.responder_machine.specs.Setup.{RspSetup};
    ghost use Rattle.spdm_grammar.specs.Message.{chunk_message};
    ghost use Rattle.responder_core.specs.Connected.{StandsFor};
    ghost use Rattle.responder_core.specs.Gathering.{IsCompletedBy};

    /// Whether a chunk completes the large request that arrives in chunks in the clear; that request then overwrites
    /// `whole`. Nothing changes.
    pub fn completes(&self, chunk: ChunkView<'_>, whole: &mut Frame) -> bool
        ensures { (r : RspSetup) (h : History) → StandsFor self.now r h → IsCompletedBy
            (collected r.max (chunks_of (clear_turns h)) (chunk_message chunk.entry)) result
            whole.new }
    {
        self.clear.requests().completes(chunk, whole)
    }
}
