ghost use Rattle.std.specs.Prelude.{◌≡◌, ◌≤◌, Some, length};
ghost use Rattle.requester_machine.specs.Bodies.{first_cause};
ghost use Rattle.requester_machine.specs.ClearAnswers as answers;
ghost use Rattle.requester_machine.specs.ClearAnswers.{ack_carries, carried_by, reading_of};
ghost use Rattle.requester_machine.specs.History.{History, connection_terms, negotiation_of, outstanding};
ghost use Rattle.requester_machine.specs.Message.{Sent, asked_in};
ghost use Rattle.requester_machine.specs.Sending.{piece_of};
ghost use Rattle.requester_machine.specs.Setup.{ReqSetup};
ghost use Rattle.requester_machine.specs.UnderWay.{IsAwaited};
ghost use Rattle.spdm_grammar.specs.Message.{ChunkMessage, RequestMessage};
ghost use Rattle.spdm_grammar.specs.Requests.{canonical_request};
ghost use Rattle.spdm_grammar.specs.declared.names.TheConstants.{MAX_MESSAGE_SIZE};
ghost use Rattle.requester_core.specs.Gathering.{Gathered, Gathers, Leaves};
ghost use Rattle.requester_core.specs.ReplyOutcome.{IsCarried, IsTaken, is_large};
ghost use Rattle.requester_core.specs.Negotiating.{IsUpTo};
ghost use Rattle.requester_core.specs.Outgoing.{IsCut};
ghost use Rattle.requester_core.specs.Setup.{IsSetUp};
ghost use Rattle.requester_core.specs.ClearState.{Shows, StandsFor};
ghost use Rattle.requester_core.specs.Outstanding.{kind_of, mode_of};
ghost use Rattle.requester_core.specs.declared.clear.outstanding.TransferMode.TheVariants as modes;

use crate::clear::bodies::error_in;
use crate::{ClearState, Outstanding, PendingRequest, ReplyOutcome, Setup, TransferMode};
use chunking::Collector;
use spdm_basis::Frame;
use spdm_grammar::{ReqIgnored, Response};

// Where the response stands in CHUNK_SEND_ACK.
const RESPONSE_AT: usize = 6;

/// CHUNK_SEND_ACK (DSP0274, "CHUNK_SEND_ACK response message format").
#[derive(Clone, Copy)]
pub struct Ack<'a> {
    pub early: bool,
    pub handle: u8,
    pub number: u16,
    pub response: &'a [u8],
}

/// A chunk of a request that was sent: its handle and number, and whether it was the last.
#[derive(Clone, Copy)]
pub struct Piece {
    pub handle: u8,
    pub number: u16,
    pub last: bool,
}

impl Ack<'_> {
    // Why it is no acknowledgement of a chunk, if it is none.
    fn fault(&self, piece: &Piece) -> Option<ReqIgnored>
        ensures { (c : ChunkMessage) → c.handle ≡ piece.now.handle → c.number ≡ piece.now.number
            → c.last ≡ piece.now.last → result ≡ first_cause (answers.ack_tests c self.now.early
            self.now.handle self.now.number self.now.response.now) }
    {
        if self.handle != piece.handle {
            return Some(ReqIgnored::Malformed(3));
        }
        if self.number != piece.number {
            return Some(ReqIgnored::Malformed(4));
        }
        if self.early && error_in(self.response).is_none() {
            return Some(ReqIgnored::Malformed(RESPONSE_AT));
        }
        if !self.early && !piece.last && !self.response.is_empty() {
            return Some(ReqIgnored::Malformed(RESPONSE_AT));
        }
        None
    }
}

impl ClearState {
    // An acknowledgement of a chunk without a fault: its response refuses the request or answers it, or it calls for
    // the next chunk.
    fn on_ack(
        &mut self,
        setup: &Setup<'_>,
        asked: PendingRequest,
        piece: &Piece,
        ack: &Ack<'_>,
        out: &mut Frame,
    ) -> ReplyOutcome
        ensures { (q : ReqSetup) (h : History) (request : RequestMessage) → IsSetUp setup.now q
            → Shows self.old h → IsAwaited q h request → kind_of request ≡ asked
            → self.old.outgoing.request ≡ canonical_request request
            → IsUpTo request (negotiation_of h) → length ack.now.response.now ≤ MAX_MESSAGE_SIZE
            → IsCut (modes.ByChunks piece.now.handle piece.now.number)
            (connection_terms h).common.to_responder.transfer (canonical_request request)
            → piece.now.last
            ≡ (piece_of (connection_terms h).common request piece.now.handle piece.now.number).last
            → IsCarried q h request (answers.acknowledged h (connection_terms h).common request
            (piece_of (connection_terms h).common request piece.now.handle piece.now.number)
            ack.now.early ack.now.response.now (first_cause (answers.ack_tests
            (piece_of (connection_terms h).common request piece.now.handle piece.now.number)
            ack.now.early ack.now.handle ack.now.number ack.now.response.now)))
            result self.old self.new out.new }
    {
        if let Some(cause) = ack.fault(piece) {
            return ReplyOutcome::Ignored(cause);
        }
        if ack.early {
            return self.refuse(asked, error_in(ack.response).unwrap_or(0));
        }
        if piece.last {
            return self.on_answer(setup, asked, ack.response, RESPONSE_AT, out);
        }
        let mode = TransferMode::ByChunks {
            handle: piece.handle,
            number: piece.number.saturating_add(1),
        };
        let transfer = self.negotiating.common().to_responder.transfer;
        ReplyOutcome::Sends {
            tag: self.outgoing.send(asked, mode, transfer, out),
        }
    }

    // A message came to a chunk of a request that was sent.
    fn on_sent(
        &mut self,
        setup: &Setup<'_>,
        asked: PendingRequest,
        handle: u8,
        number: u16,
        message: &[u8],
        out: &mut Frame,
    ) -> ReplyOutcome
        ensures { (q : ReqSetup) (h : History) (request : RequestMessage) → IsSetUp setup.now q
            → Shows self.old h → IsAwaited q h request → kind_of request ≡ asked
            → self.old.outgoing.request ≡ canonical_request request
            → IsUpTo request (negotiation_of h) → length message.now ≤ MAX_MESSAGE_SIZE
            → IsCut (modes.ByChunks handle number)
            (connection_terms h).common.to_responder.transfer (canonical_request request)
            → IsCarried q h request (ack_carries h (connection_terms h).common request
            (piece_of (connection_terms h).common request handle number)
            (reading_of h request message.now)) result self.old self.new out.new }
    {
        let response = match self.read(asked, message) {
            Ok(response) => response,
            Err(fault) => return ReplyOutcome::Ignored(ReqIgnored::Malformed(fault.at)),
        };
        match response {
            Response::Error { code, .. } => self.refuse(asked, code),
            Response::ChunkSendAck {
                early,
                handle: of,
                number: at,
                response,
            } => {
                let transfer = self.negotiating.common().to_responder.transfer;
                let last = self.outgoing.is_last(transfer, handle, number);
                let piece = Piece {
                    handle,
                    number,
                    last,
                };
                let ack = Ack {
                    early,
                    handle: of,
                    number: at,
                    response,
                };
                self.on_ack(setup, asked, &piece, &ack, out)
            }
            _ => ReplyOutcome::Ignored(ReqIgnored::Malformed(1)),
        }
    }

    // A message in the clear came to what is asked, which goes this way.
    fn on_transfer(
        &mut self,
        setup: &Setup<'_>,
        asked: PendingRequest,
        mode: TransferMode,
        gathered: &mut Collector,
        message: &[u8],
        out: &mut Frame,
    ) -> ReplyOutcome
        ensures { (q : ReqSetup) (h : History) (sent : Sent) (request : RequestMessage)
            → IsSetUp setup.now q → StandsFor self.old q h → outstanding h ≡ Some sent
            → Gathers q (outstanding h) gathered.old → asked_in sent.aim ≡ Some request
            → kind_of request ≡ asked → mode_of sent.aim ≡ mode
            → length message.now ≤ MAX_MESSAGE_SIZE
            → IsTaken q h sent request message.now result self.old self.new out.new
            × Leaves q (carried_by q h message.now sent.aim) result gathered.old gathered.new }
    {
        match mode {
            TransferMode::Whole => self.on_answer(setup, asked, message, 0, out),
            TransferMode::ByChunks { handle, number } => {
                self.on_sent(setup, asked, handle, number, message, out)
            }
            TransferMode::ForChunk { handle, number } => {
                self.on_get(setup, asked, handle, number, gathered, message, out)
            }
        }
    }

    // A message in the clear came to the outstanding one.
    fn on_outstanding(
        &mut self,
        setup: &Setup<'_>,
        gathered: &mut Collector,
        message: &[u8],
        out: &mut Frame,
    ) -> ReplyOutcome
        ensures { (q : ReqSetup) (h : History) (sent : Sent) (request : RequestMessage)
            → IsSetUp setup.now q → StandsFor self.old q h → outstanding h ≡ Some sent
            → Gathers q (outstanding h) gathered.old → asked_in sent.aim ≡ Some request
            → length message.now ≤ MAX_MESSAGE_SIZE
            → IsTaken q h sent request message.now result self.old self.new out.new
            × Leaves q (carried_by q h message.now sent.aim) result gathered.old gathered.new }
    {
        match self.outgoing.waiting() {
            Outstanding::InClear { asked, mode, .. } => {
                self.on_transfer(setup, asked, mode, gathered, message, out)
            }
            Outstanding::Nothing | Outstanding::InSession { .. } => {
                ReplyOutcome::Ignored(ReqIgnored::NothingOutstanding)
            }
        }
    }

    /// Handles a clear message of at most 4,096 bytes while a clear request is outstanding. `gathered` has the chunks
    /// received of its large response. The message sent next, if any, or the awaited PSK_EXCHANGE_RSP, overwrites
    /// `out`.
    pub fn on_clear(
        &mut self,
        setup: &Setup<'_>,
        gathered: &mut Collector,
        message: &[u8],
        out: &mut Frame,
    ) -> ReplyOutcome
        ensures taken { (q : ReqSetup) (h : History) (sent : Sent) (request : RequestMessage)
            → IsSetUp setup.now q → StandsFor self.old q h → outstanding h ≡ Some sent
            → Gathers q (outstanding h) gathered.old → asked_in sent.aim ≡ Some request
            → length message.now ≤ MAX_MESSAGE_SIZE
            → IsTaken q h sent request message.now result self.old self.new out.new }
        ensures gathered { (q : ReqSetup) (h : History) (sent : Sent) (request : RequestMessage)
            → IsSetUp setup.now q → StandsFor self.old q h → outstanding h ≡ Some sent
            → Gathers q (outstanding h) gathered.old → asked_in sent.aim ≡ Some request
            → length message.now ≤ MAX_MESSAGE_SIZE
            → Gathered q h sent request message.now result gathered.old gathered.new }
    {
        let led = self.on_outstanding(setup, gathered, message, out);
        if led.is_large() {
            gathered.clear();
        }
        led
    }
}
