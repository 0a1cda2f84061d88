ghost use Rattle.std.specs.Prelude.{◌≡◌, ◌≤◌, ◌∷◌, true, ℕ, List, length};
ghost use Rattle.responder_machine.specs.Answer.{Free};
ghost use Rattle.responder_machine.specs.Place as places;
ghost use Rattle.responder_machine.specs.Place.{place_terms};
ghost use Rattle.responder_machine.specs.Setup.{RspSetup};
ghost use Rattle.responder_machine.specs.Turn.{Turn, is_taken};
ghost use Rattle.responder_machine.specs.Turn.Effect.{NoEffect};
ghost use Rattle.responder_rules.specs.LargeAnswer as large_answers;
ghost use Rattle.responder_rules.specs.Place.{IsPlace, where_of};
ghost use Rattle.spdm_grammar.specs.Message.{ExchangeMessage, RequestMessage, request_message};
ghost use Rattle.spdm_grammar.specs.Codes.{code_for};
ghost use Rattle.spdm_grammar.specs.Message.RequestMessage.{PskExchange};
ghost use Rattle.spdm_grammar.specs.declared.names.TheConstants.{MAX_MESSAGE_SIZE};
ghost use Rattle.responder_core.specs.Negotiating as negotiations;
ghost use Rattle.responder_core.specs.Setup.{IsSetUp};
ghost use Rattle.responder_core.specs.ClearState.{IsSettledAt, StandsFor, place_at};
ghost use Rattle.responder_core.specs.Taking.{IsTaking};

use crate::clear::contents::{choice_of, code_of, common_with};
use crate::{ClearState, Negotiating, Setup};
use responder_rules::{LargeAnswer, Place};
use spdm_grammar::Request;
use spdm_grammar::names::request_code::{CHUNK_GET, PSK_EXCHANGE};

// A request was taken: the negotiation goes on where it is one of its three.
fn settle(
    negotiating: &mut Negotiating,
    setup: &Setup<'_>,
    request: &Request<'_>,
    message: &[u8],
    answer: &[u8],
)
    ensures { (r : RspSetup) (p : places.Place) (f : Free) (turns : List Turn) (t : Turn)
        → IsSetUp setup.now r → negotiations.StandsFor negotiating.old turns
        → p.phase ≡ negotiating.old.phase
        → IsTaking r p message.now f (request_message request.now) answer.now t
        → negotiations.StandsFor negotiating.new (t ∷ turns) }
{
    match request {
        Request::GetVersion => negotiating.take_version(message, answer),
        Request::GetCapabilities(caps) => {
            if let Some(common) = common_with(setup, caps) {
                negotiating.take_capabilities(message, answer, common);
            }
        }
        Request::NegotiateAlgorithms(offer) => {
            if let Some(choice) = choice_of(setup, offer) {
                negotiating.take_algorithms(message, answer, choice);
            }
        }
        _ => {}
    }
}

// A request of this code was taken: CHUNK_GET goes on in the large response; any other drops it, and begins one where
// its own answer is sent in chunks.
fn settle_large(large: &mut LargeAnswer, place: &Place, code: u8, answer: &[u8], handle: u8)
    requires { length answer.now ≤ MAX_MESSAGE_SIZE }
    ensures { (r : RspSetup) (p : places.Place) (m : List ℕ) (f : Free) (asked : RequestMessage)
        (t : Turn) → IsPlace place.now p → f.handle ≡ handle → IsSettledAt p
        → code ≡ code_for asked
        → large_answers.StandsFor large.old (place_terms p).common.to_requester.transfer p.turns
        → IsTaking r p m f asked answer.now t
        → large_answers.StandsFor large.new (place_terms p).common.to_requester.transfer
        (t ∷ p.turns) }
{
    if code == CHUNK_GET {
        large.advance();
    } else if place.goes_large(answer.len()) {
        large.begin(answer, place.common.to_requester.transfer, handle);
    } else {
        large.clear();
    }
}

impl ClearState {
    /// Records an accepted request at this place, with its complete response of at most 4,096 bytes; if that is sent in
    /// chunks it has this handle.
    pub fn take(
        &mut self,
        place: &Place,
        setup: &Setup<'_>,
        request: &Request<'_>,
        message: &[u8],
        answer: &[u8],
        handle: u8,
    )
        requires { length answer.now ≤ MAX_MESSAGE_SIZE }
        ensures { (r : RspSetup) (turns : List Turn) (held : ℕ) (f : Free) (t : Turn)
            → IsSetUp setup.now r → f.handle ≡ handle → StandsFor self.old turns
            → IsPlace place.now (place_at (where_of place.now.at) turns held)
            → IsTaking r (place_at (where_of place.now.at) turns held) message.now f
            (request_message request.now) answer.now t
            → StandsFor self.new (t ∷ turns) }
    {
        settle(&mut self.negotiating, setup, request, message, answer);
        settle_large(&mut self.large, place, code_of(request), answer, handle);
    }

    /// Records an accepted PSK_EXCHANGE at this place, with its complete response of at most 4,096 bytes; if that is
    /// sent in chunks it has this handle.
    pub fn take_exchange(&mut self, place: &Place, answer: &[u8], handle: u8)
        requires { length answer.now ≤ MAX_MESSAGE_SIZE }
        ensures { (r : RspSetup) (turns : List Turn) (held : ℕ) (m : List ℕ) (f : Free)
            (exchange : ExchangeMessage) (t : Turn) → f.handle ≡ handle → StandsFor self.old turns
            → IsPlace place.now (place_at (where_of place.now.at) turns held)
            → IsTaking r (place_at (where_of place.now.at) turns held) m f
            (PskExchange exchange) answer.now t
            → StandsFor self.new (t ∷ turns) }
    {
        settle_large(&mut self.large, place, PSK_EXCHANGE, answer, handle);
    }

    /// Records a chunk of an incomplete large request: it discards the pending large response.
    pub fn take_chunk(&mut self)
        ensures { (turns : List Turn) (t : Turn) → StandsFor self.old turns → is_taken t ≡ true
            → t.effect ≡ NoEffect → StandsFor self.new (t ∷ turns) }
    {
        self.large.clear();
    }
}
