ghost use Rattle.std.specs.Prelude.{◌≡◌, ◌≤◌, ◌∷◌, [], true, false, None, Some, IfSome, is_some, ℕ, List, length};
ghost use Rattle.chunking.specs.Collecting.{accepted_with, collected, joined, told_size, under_way};
ghost use Rattle.chunking.specs.Keeping as keeping;
ghost use Rattle.responder_machine.specs.Answer.{Free, answer_bytes, request_at};
ghost use Rattle.responder_machine.specs.LargeMessages.{chunks_of};
ghost use Rattle.responder_machine.specs.Laws.{completed_at};
ghost use Rattle.responder_machine.specs.Place as places;
ghost use Rattle.responder_machine.specs.Place.Where.{InClear};
ghost use Rattle.responder_machine.specs.Refusal.{chunk_fault, has_pending, refusal, refused_form};
ghost use Rattle.responder_machine.specs.Setup.{RspSetup};
ghost use Rattle.responder_machine.specs.Turn.{Turn};
ghost use Rattle.spdm_grammar.specs.Message.{chunk_message};
ghost use Rattle.spdm_grammar.specs.Message.RequestMessage.{ChunkSend};
ghost use Rattle.spdm_grammar.specs.declared.names.TheConstants.{MAX_MESSAGE_SIZE};
ghost use Rattle.responder_core.specs.Coming.{Completes, IsBegun, IsCome, IsTakenTurn, IsTurned, StandsFor, StaysToBegin, exchange_bytes, exchange_place};
ghost use Rattle.responder_core.specs.Free.{IsFree};
ghost use Rattle.responder_core.specs.Refused.{chunk_refusal};
ghost use Rattle.responder_core.specs.Setup.{IsSetUp};
ghost use Rattle.responder_core.specs.ClearState as standings;
ghost use Rattle.responder_core.specs.ClearState.{place_at};

use crate::clear::answers::write_acknowledgement;
use crate::clear::gathering::{Gathered, gather};
use crate::{ClearState, ExchangeOrigin, FreeValues, HandledRequest, RequestOutcome, Setup};
use chunking::Collector;
use responder_rules::Where;
use spdm_basis::Frame;
use spdm_grammar::names::request_code::{CHUNK_SEND, GET_MEASUREMENTS};
use spdm_grammar::{ChunkFault, ChunkView, ErrorCode};
use std::marker::Model;

/// The request state of the clear part of a connection, and the large request that arrives in chunks.
#[derive(Drop)]
pub struct Requests {
    pub(crate) standing: ClearState,
    pub(crate) collector: Collector,
    whole: Frame,
}

impl Model for Requests {
    ghost use Rattle.responder_core.specs.Coming.{Seen};

    ghost Value = { Seen };

    ghost view = { λ q. record {
      standing = q.standing;
      collector = q.collector;
      whole = q.whole;
    } };
}

// The code for which a chunk is refused that breaks a rule of collecting.
fn code_of_fault(fault: ChunkFault) -> ErrorCode
    ensures { chunk_refusal (Some fault) ≡ Some result }
{
    match fault {
        ChunkFault::TooLarge => ErrorCode::RequestTooLarge,
        _ => ErrorCode::InvalidRequest,
    }
}

impl Requests {
    /// The initial state, before any request.
    pub fn new(setup: &Setup<'_>) -> Requests
        ensures { (r : RspSetup) → IsSetUp setup.now r → StandsFor result r [] }
    {
        Requests {
            standing: ClearState::new(),
            collector: Collector::new(setup.max),
            whole: Frame::new(),
        }
    }

    /// Returns a copy; `None` while a large response is pending.
    pub fn idle_copy(&self) -> Option<Requests>
        ensures same { IfSome result (λ copy. copy ≡ self.now) }
        ensures idle { (at : places.Where) (turns : List Turn) (held : ℕ)
            → standings.StandsFor self.now.standing turns
            → has_pending (place_at at turns held) ≡ false → is_some result ≡ true }
    {
        let standing = self.standing.idle_copy()?;
        let mut whole = Frame::new();
        let _ = whole.extend(self.whole.as_slice());
        Some(Requests {
            standing,
            collector: self.collector.copy(),
            whole,
        })
    }

    /// The large request that was completed last.
    pub fn whole(&self) -> &[u8]
        ensures value { result.now ≡ self.now.whole }
        ensures fits { length result.now ≤ MAX_MESSAGE_SIZE }
    {
        self.whole.as_slice()
    }

    /// The bytes received so far of the chunked large request; empty if there is none.
    pub fn under_way(&self) -> &[u8]
        ensures { (r : RspSetup) (turns : List Turn) → StandsFor self.now r turns
            → result.now ≡ joined (under_way (chunks_of turns)) }
    {
        self.collector.under_way()
    }

    /// The state of the clear part.
    pub fn standing(&self) -> &ClearState
        ensures { result.now ≡ self.now.standing }
    {
        &self.standing
    }

    /// The announced length of the large request in progress; 0 if there is none.
    pub fn told(&self) -> u32
        ensures value { (r : RspSetup) (turns : List Turn) → StandsFor self.now r turns
            → result ≡ told_size (under_way (chunks_of turns)) }
        ensures fits { result ≤ MAX_MESSAGE_SIZE }
    {
        self.collector.told()
    }

    // A large request was completed: what is sent for it goes into the acknowledgement of its last chunk.
    fn on_whole(
        &mut self,
        setup: &Setup<'_>,
        held: u8,
        chunk: ChunkView<'_>,
        free: &FreeValues<'_>,
        out: &mut Frame,
    ) -> RequestOutcome
        ensures come { (r : RspSetup) (turns : List Turn) (m : List ℕ) (f : Free)
            → IsSetUp setup.now r → IsFree free.now f
            → Completes r (place_at InClear turns held) m f (chunk_message chunk.entry) self.old
            → IsCome r (place_at InClear turns held) m f result self.new out.new }
        ensures stays { StaysToBegin result self.old self.new }
    {
        let mut response = Frame::new();
        let whole = self.whole.as_slice();
        match self
            .standing
            .handle(Where::InChunks, setup, held, whole, free, &mut response)
        {
            HandledRequest::Refused(_) => {
                self.standing.take_chunk();
                write_acknowledgement(chunk.handle, chunk.number, response.as_slice(), out);
                RequestOutcome::Answered {
                    code: CHUNK_SEND,
                    drawn: false,
                }
            }
            HandledRequest::Answered(code) => {
                write_acknowledgement(chunk.handle, chunk.number, response.as_slice(), out);
                RequestOutcome::Answered {
                    code: CHUNK_SEND,
                    drawn: code == GET_MEASUREMENTS,
                }
            }
            HandledRequest::Exchange(_) => RequestOutcome::Begins(ExchangeOrigin::InChunks {
                handle: chunk.handle,
                number: chunk.number,
            }),
            // No chunk comes inside a large request.
            HandledRequest::Chunk(_) => RequestOutcome::Answered {
                code: CHUNK_SEND,
                drawn: false,
            },
        }
    }

    // A chunk came that is refused for no more than for the chunks before it.
    fn on_chunk(
        &mut self,
        setup: &Setup<'_>,
        held: u8,
        chunk: ChunkView<'_>,
        message: &[u8],
        free: &FreeValues<'_>,
        out: &mut Frame,
    ) -> RequestOutcome
        ensures come { (r : RspSetup) (turns : List Turn) (f : Free) → IsSetUp setup.now r
            → IsFree free.now f → StandsFor self.old r turns
            → refused_form r (place_at InClear turns held) message.now ≡ None
            → request_at (place_at InClear turns held) message.now
            ≡ Some (ChunkSend (chunk_message chunk.entry))
            → refusal r (place_at InClear turns held) message.now f ≡ chunk_refusal (chunk_fault r
            (place_at InClear turns held) (Some (ChunkSend (chunk_message chunk.entry))))
            → IsCome r (place_at InClear turns held) message.now f result self.new out.new }
        ensures stays { StaysToBegin result self.old self.new }
    {
        match gather(&mut self.collector, chunk, &mut self.whole) {
            Gathered::Refused(fault) => {
                let code = code_of_fault(fault);
                let place = self.standing.place(Where::InClear);
                place.write_error(code, message, 0, out);
                RequestOutcome::Refused(code)
            }
            Gathered::More => {
                self.standing.take_chunk();
                write_acknowledgement(chunk.handle, chunk.number, &[], out);
                RequestOutcome::Answered {
                    code: CHUNK_SEND,
                    drawn: false,
                }
            }
            Gathered::Whole => self.on_whole(setup, held, chunk, free, out),
        }
    }

    /// Handles a clear request that is not a repeat; `held` counts established sessions. The response overwrites `out`.
    /// If the request begins a session nothing is sent yet, and `begin` completes the turn.
    pub fn on_request(
        &mut self,
        setup: &Setup<'_>,
        held: u8,
        message: &[u8],
        free: &FreeValues<'_>,
        out: &mut Frame,
    ) -> RequestOutcome
        ensures come { (r : RspSetup) (turns : List Turn) (f : Free) → IsSetUp setup.now r
            → IsFree free.now f → StandsFor self.old r turns
            → IsCome r (place_at InClear turns held) message.now f result self.new out.new }
        ensures stays { StaysToBegin result self.old self.new }
    {
        match self
            .standing
            .handle(Where::InClear, setup, held, message, free, out)
        {
            HandledRequest::Refused(code) => RequestOutcome::Refused(code),
            HandledRequest::Answered(code) => {
                self.collector.clear();
                let drawn = code == GET_MEASUREMENTS;
                RequestOutcome::Answered { code, drawn }
            }
            HandledRequest::Exchange(_) => RequestOutcome::Begins(ExchangeOrigin::InClear),
            HandledRequest::Chunk(chunk) => self.on_chunk(setup, held, chunk, message, free, out),
        }
    }

    /// Completes the turn of a PSK_EXCHANGE that begins a session, with the complete PSK_EXCHANGE_RSP. The message sent
    /// overwrites `out`; it has this handle if it is sent in chunks.
    pub fn begin(&mut self, begun: ExchangeOrigin, answer: &[u8], handle: u8, out: &mut Frame)
        requires { length answer.now ≤ MAX_MESSAGE_SIZE }
        ensures { (r : RspSetup) (turns : List Turn) (held : ℕ) (m : List ℕ) (f : Free)
            → f.handle ≡ handle → r.transfer ≤ r.max → r.max ≤ MAX_MESSAGE_SIZE
            → IsBegun r (place_at InClear turns held) m f begun self.old
            → answer.now ≡ answer_bytes r (exchange_place begun (place_at InClear turns held))
            (exchange_bytes begun m self.old) f
            → IsTakenTurn r (place_at InClear turns held) m f self.new out.new }
    {
        match begun {
            ExchangeOrigin::InClear => {
                self.standing.begin(Where::InClear, answer, handle, out);
                self.collector.clear();
            }
            ExchangeOrigin::InChunks {
                handle: of_chunk,
                number,
            } => {
                let mut response = Frame::new();
                self.standing
                    .begin(Where::InChunks, answer, handle, &mut response);
                write_acknowledgement(of_chunk, number, response.as_slice(), out);
            }
        }
    }
}
