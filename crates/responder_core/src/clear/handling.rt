ghost use Rattle.std.specs.Prelude.{◌≡◌, ◌≤◌, ◌∷◌, true, ℕ, List, length};
ghost use Rattle.responder_machine.specs.Answer.{Free, answer_bytes};
ghost use Rattle.responder_machine.specs.Handling.{request_effect, request_reply, sent_for};
ghost use Rattle.responder_machine.specs.Place as places;
ghost use Rattle.responder_machine.specs.Setup.{RspSetup};
ghost use Rattle.responder_machine.specs.Turn.{Turn, is_taken};
ghost use Rattle.responder_rules.specs.Place.{IsPlace, where_of};
ghost use Rattle.spdm_grammar.specs.Message.{ExchangeMessage, request_message};
ghost use Rattle.spdm_grammar.specs.Message.RequestMessage.{PskExchange};
ghost use Rattle.spdm_grammar.specs.declared.names.TheConstants.{MAX_MESSAGE_SIZE};
ghost use Rattle.responder_core.specs.Free.{IsFree};
ghost use Rattle.responder_core.specs.HandledRequest.{IsHandled, IsUntouched};
ghost use Rattle.responder_core.specs.Refused.{IsClear, IsPassed};
ghost use Rattle.responder_core.specs.Setup.{IsSetUp};
ghost use Rattle.responder_core.specs.ClearState.{StandsFor, place_at};
ghost use Rattle.responder_core.specs.Taking.{IsTaking};

use crate::clear::contents::code_of;
use crate::{ClearState, FreeValues, HandledRequest, Setup};
use responder_rules::{Place, Where, write_large_response};
use spdm_basis::Frame;
use spdm_grammar::Request;

/// Turns a response into what is sent: LargeResponse with this handle if it is sent in chunks, else the response
/// itself.
pub fn send(place: &Place, handle: u8, out: &mut Frame)
    ensures { (p : places.Place) (f : Free) → IsPlace place.now p → f.handle ≡ handle
        → out.new ≡ sent_for p f out.old }
{
    if place.goes_large(out.as_slice().len()) {
        write_large_response(handle, out);
    }
}

/// Overwrites `out` with these bytes, of which there are at most 4,096.
pub fn replace(out: &mut Frame, bytes: &[u8])
    requires { length bytes.now ≤ MAX_MESSAGE_SIZE }
    ensures { out.new ≡ bytes.now }
{
    let _ = out.replace(bytes);
}

impl ClearState {
    // Takes a request whose answer stands in `out`, and writes what is sent for it.
    fn answer(
        &mut self,
        place: &Place,
        setup: &Setup<'_>,
        request: &Request<'_>,
        message: &[u8],
        handle: u8,
        out: &mut Frame,
    )
        ensures stands { (r : RspSetup) (turns : List Turn) (held : ℕ) (f : Free) (t : Turn)
            → IsSetUp setup.now r → f.handle ≡ handle → StandsFor self.old turns
            → IsPlace place.now (place_at (where_of place.now.at) turns held)
            → IsTaking r (place_at (where_of place.now.at) turns held) message.now f
            (request_message request.now) out.old t
            → StandsFor self.new (t ∷ turns) }
        ensures sent { (p : places.Place) (f : Free) → IsPlace place.now p → f.handle ≡ handle
            → out.new ≡ sent_for p f out.old }
    {
        self.take(place, setup, request, message, out.as_slice(), handle);
        send(place, handle, out);
    }

    /// Handles a message at a place of the clear part: in the clear, or inside a large request. The message sent
    /// overwrites `out`; for a chunk and for PSK_EXCHANGE nothing is sent yet. `held` counts established sessions.
    pub fn handle<'a>(
        &mut self,
        at: Where,
        setup: &Setup<'_>,
        held: u8,
        message: &'a [u8],
        free: &FreeValues<'_>,
        out: &mut Frame,
    ) -> HandledRequest<'a>
        ensures handled { (r : RspSetup) (turns : List Turn) (f : Free) → IsSetUp setup.now r
            → IsFree free.now f → StandsFor self.old turns → IsClear (where_of at)
            → IsHandled r (place_at (where_of at) turns held) message.now f result self.old
            self.new out.new }
        ensures untouched { IsUntouched result self.old self.new }
    {
        let place = self.place(at);
        let request = match self.tested(&place, setup, held, message, free, out) {
            Ok(request) => request,
            Err(refused) => {
                place.write_error(refused.code, message, refused.answer_len, out);
                return HandledRequest::Refused(refused.code);
            }
        };
        match request {
            Request::ChunkSend(chunk) => HandledRequest::Chunk(chunk),
            Request::PskExchange(exchange) => HandledRequest::Exchange(exchange),
            _ => {
                self.answer(&place, setup, &request, message, free.handle, out);
                HandledRequest::Answered(code_of(&request))
            }
        }
    }

    /// Completes a PSK_EXCHANGE that was accepted at a place, with its complete response of at most 4,096 bytes. The
    /// message sent overwrites `out`, with this handle if the response is sent in chunks.
    pub fn begin(&mut self, at: Where, answer: &[u8], handle: u8, out: &mut Frame)
        requires { length answer.now ≤ MAX_MESSAGE_SIZE }
        ensures stands { (r : RspSetup) (turns : List Turn) (held : ℕ) (m : List ℕ) (f : Free)
            (exchange : ExchangeMessage) (t : Turn) → f.handle ≡ handle → StandsFor self.old turns
            → IsTaking r (place_at (where_of at) turns held) m f (PskExchange exchange) answer.now t
            → StandsFor self.new (t ∷ turns) }
        ensures sent { (turns : List Turn) (held : ℕ) (f : Free) → f.handle ≡ handle
            → StandsFor self.old turns
            → out.new ≡ sent_for (place_at (where_of at) turns held) f answer.now }
    {
        let place = self.place(at);
        self.take_exchange(&place, answer, handle);
        replace(out, answer);
        send(&place, handle, out);
    }
}
