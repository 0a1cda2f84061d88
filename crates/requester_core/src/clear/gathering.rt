ghost use Rattle.std.specs.Prelude.{◌≡◌, ◌≤◌, ◌+◌, List, None, length};
ghost use Rattle.chunking.specs.Keeping as keeping;
ghost use Rattle.requester_machine.specs.Answers.{goes_on};
ghost use Rattle.requester_machine.specs.ClearAnswers.{chunk_carries, collected, get_fault, reading_of};
ghost use Rattle.requester_machine.specs.History.{History, negotiation_of};
ghost use Rattle.requester_machine.specs.History.Effect.{Nothing};
ghost use Rattle.requester_machine.specs.Sending.{get_sent};
ghost use Rattle.requester_machine.specs.Setup.{ReqSetup};
ghost use Rattle.requester_machine.specs.UnderWay.{AreUnderWay, IsAwaited};
ghost use Rattle.spdm_grammar.specs.Message.{ChunkMessage, RequestMessage, chunk_message};
ghost use Rattle.spdm_grammar.specs.Requests.{canonical_request};
ghost use Rattle.spdm_grammar.specs.declared.names.TheConstants.{MAX_MESSAGE_SIZE};
ghost use Rattle.requester_core.specs.Gathering.{IsFetched, is_other};
ghost use Rattle.requester_core.specs.ReplyOutcome.{SendsNext};
ghost use Rattle.requester_core.specs.Negotiating.{IsUpTo};
ghost use Rattle.requester_core.specs.Setup.{IsSetUp};
ghost use Rattle.requester_core.specs.ClearState.{Shows};
ghost use Rattle.requester_core.specs.Outstanding.{kind_of};

use crate::{ClearState, PendingRequest, ReplyOutcome, Setup, TransferMode};
use chunking::{Collected, Collector};
use spdm_basis::Frame;
use spdm_grammar::{ChunkFault, ChunkView, ReqIgnored, Response};

// Why a chunk is not the one of this handle and number, if it is not.
fn other_chunk(handle: u8, number: u16, chunk: ChunkView<'_>) -> Option<ChunkFault>
    ensures { result ≡ is_other handle number (chunk_message chunk.entry) }
{
    if chunk.handle != handle {
        return Some(ChunkFault::WrongHandle);
    }
    if chunk.number != number {
        return Some(ChunkFault::WrongNumber);
    }
    None
}

impl ClearState {
    // CHUNK_GET for the chunk after this one is sent.
    fn fetch(&mut self, asked: PendingRequest, handle: u8, number: u16, out: &mut Frame) -> u8
        ensures { (h : History) (request : RequestMessage) (before : List ChunkMessage)
            → Shows self.old h → kind_of request ≡ asked
            → self.old.outgoing.request ≡ canonical_request request
            → IsUpTo request (negotiation_of h) → number + 1 ≤ 157
            → SendsNext h (goes_on Nothing (get_sent h request handle (number + 1) before))
            (get_sent h request handle (number + 1) before) result self.new out.new }
    {
        let mode = TransferMode::ForChunk {
            handle,
            number: number.saturating_add(1),
        };
        self.outgoing.send(asked, mode, 0, out)
    }

    // The chunk came that is awaited of a large response to what is asked.
    fn on_chunk(
        &mut self,
        setup: &Setup<'_>,
        asked: PendingRequest,
        chunk: ChunkView<'_>,
        gathered: &mut Collector,
        out: &mut Frame,
    ) -> ReplyOutcome
        ensures { (q : ReqSetup) (h : History) (request : RequestMessage)
            (before : List ChunkMessage) → IsSetUp setup.now q → Shows self.old h
            → IsAwaited q h request → kind_of request ≡ asked
            → self.old.outgoing.request ≡ canonical_request request
            → IsUpTo request (negotiation_of h)
            → AreUnderWay q.max chunk.entry.handle chunk.entry.number before
            → keeping.StandsFor gathered.old before → gathered.old.max ≡ q.max
            → IsFetched q h request (collected h request before (chunk_message chunk.entry)
            (get_fault q.max chunk.entry.handle chunk.entry.number before
            (chunk_message chunk.entry))) result self.old self.new gathered.old gathered.new
            out.new }
    {
        let before = gathered.copy();
        match gathered.take(chunk) {
            Collected::Refused(fault) => ReplyOutcome::Ignored(ReqIgnored::Chunk(fault)),
            Collected::More => ReplyOutcome::More {
                tag: self.fetch(asked, chunk.handle, chunk.number, out),
            },
            Collected::Whole(answer) => {
                let led = self.on_answer(setup, asked, answer, 0, out);
                if led.changes_nothing() {
                    *gathered = before;
                }
                led
            }
        }
    }

    // A message came to CHUNK_GET for the chunk of this number of a large response to what is asked.
    pub(crate) fn on_get(
        &mut self,
        setup: &Setup<'_>,
        asked: PendingRequest,
        handle: u8,
        number: u16,
        gathered: &mut Collector,
        message: &[u8],
        out: &mut Frame,
    ) -> ReplyOutcome
        ensures { (q : ReqSetup) (h : History) (request : RequestMessage)
            (before : List ChunkMessage) → IsSetUp setup.now q → Shows self.old h
            → IsAwaited q h request → kind_of request ≡ asked
            → self.old.outgoing.request ≡ canonical_request request
            → IsUpTo request (negotiation_of h) → length message.now ≤ MAX_MESSAGE_SIZE
            → AreUnderWay q.max handle number before
            → keeping.StandsFor gathered.old before → gathered.old.max ≡ q.max
            → IsFetched q h request (chunk_carries q h request handle number before
            (reading_of h request message.now)) result self.old self.new gathered.old gathered.new
            out.new }
    {
        let response = match self.read(asked, message) {
            Ok(response) => response,
            Err(fault) => return ReplyOutcome::Ignored(ReqIgnored::Malformed(fault.at)),
        };
        match response {
            Response::Error { code, .. } => self.refuse(asked, code),
            Response::ChunkResponse(chunk) => match other_chunk(handle, number, chunk) {
                Some(fault) => ReplyOutcome::Ignored(ReqIgnored::Chunk(fault)),
                None => self.on_chunk(setup, asked, chunk, gathered, out),
            },
            _ => ReplyOutcome::Ignored(ReqIgnored::Malformed(1)),
        }
    }
}
