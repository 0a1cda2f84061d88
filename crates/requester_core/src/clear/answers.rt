ghost use Rattle.std.specs.Prelude.{◌≡◌, ◌≤◌, ◌<◌, ◌+◌, ◌^◌, ℕ, List, Ok, Err, length};
ghost use Rattle.requester_machine.specs.ClearAnswers.{reading_of};
ghost use Rattle.requester_machine.specs.History.{History, negotiation_of};
ghost use Rattle.requester_machine.specs.Setup.{ReqSetup};
ghost use Rattle.requester_machine.specs.UnderWay.{IsAwaited};
ghost use Rattle.spdm_grammar.specs.Message.{RequestMessage, response_message};
ghost use Rattle.spdm_grammar.specs.Requests.{canonical_request};
ghost use Rattle.spdm_grammar.specs.declared.messages.malformed.Malformed.{Malformed};
ghost use Rattle.spdm_grammar.specs.declared.names.TheConstants.{MAX_MESSAGE_SIZE};
ghost use Rattle.requester_core.specs.ReplyOutcome.{IsAnswered};
ghost use Rattle.requester_core.specs.Negotiating.{IsUpTo};
ghost use Rattle.requester_core.specs.Setup.{IsSetUp};
ghost use Rattle.requester_core.specs.ClearState.{Shows, StandsFor};
ghost use Rattle.requester_core.specs.Outstanding.{kind_of};

use crate::{ClearState, PendingRequest, ReplyOutcome, Setup};
use spdm_basis::Frame;
use spdm_grammar::{ReqIgnored, Response};

// The place of a fault in a message, by its place in the answer that the message carries.
fn place_of(at: usize, place: usize) -> usize
    ensures { place + at < 2 ^ 64 → result ≡ place + at }
{
    if place == 0 {
        return at;
    }
    at.saturating_add(place)
}

// Overwrites `out` with bytes, where they fit.
fn put(bytes: &[u8], out: &mut Frame)
    ensures { length bytes.now ≤ MAX_MESSAGE_SIZE → out.new ≡ bytes.now }
{
    let _ = out.replace(bytes);
}

impl ClearState {
    // Handles the complete response to the outstanding request, of at most 4,096 bytes. It begins at this offset of its
    // message, near the front.
    fn on_response(
        &mut self,
        setup: &Setup<'_>,
        asked: PendingRequest,
        answer: &[u8],
        response: Response<'_>,
        place: usize,
        out: &mut Frame,
    ) -> ReplyOutcome
        requires { place ≤ 6 }
        ensures { (q : ReqSetup) (h : History) (request : RequestMessage) → IsSetUp setup.now q
            → Shows self.old h → IsAwaited q h request → kind_of request ≡ asked
            → self.old.outgoing.request ≡ canonical_request request
            → IsUpTo request (negotiation_of h) → length answer.now ≤ MAX_MESSAGE_SIZE
            → reading_of h request answer.now ≡ Ok (response_message response.entry)
            → IsAnswered q h place request answer.now result self.old self.new out.new }
    {
        match (asked, response) {
            (_, Response::Error { code, extended, .. }) => {
                self.on_error(asked, code, extended, out)
            }
            (PendingRequest::Version, Response::Version { entries }) => {
                self.on_version(setup, answer, entries, out)
            }
            (PendingRequest::Capabilities, Response::Capabilities(theirs)) => {
                self.on_capabilities(setup, answer, &theirs, out)
            }
            (PendingRequest::Algorithms, Response::Algorithms(reply)) => {
                self.on_algorithms(setup, answer, &reply)
            }
            (PendingRequest::Measurements { op }, Response::Measurements(measured)) => {
                self.on_measurements(op, &measured)
            }
            (PendingRequest::Exchange { .. }, Response::PskExchangeRsp(_)) => {
                put(answer, out);
                ReplyOutcome::Exchange
            }
            _ => ReplyOutcome::Ignored(ReqIgnored::Malformed(place + 1)),
        }
    }

    /// Handles the complete response to the outstanding request, of at most 4,096 bytes. It begins at this offset of
    /// its message, near the front.
    pub(crate) fn on_answer(
        &mut self,
        setup: &Setup<'_>,
        asked: PendingRequest,
        answer: &[u8],
        place: usize,
        out: &mut Frame,
    ) -> ReplyOutcome
        requires { place ≤ 6 }
        ensures { (q : ReqSetup) (h : History) (request : RequestMessage) → IsSetUp setup.now q
            → Shows self.old h → IsAwaited q h request → kind_of request ≡ asked
            → self.old.outgoing.request ≡ canonical_request request
            → IsUpTo request (negotiation_of h) → length answer.now ≤ MAX_MESSAGE_SIZE
            → ((e : Malformed) → reading_of h request answer.now ≡ Err e → place + e.at < 2 ^ 64)
            → IsAnswered q h place request answer.now result self.old self.new out.new }
    {
        match self.read(asked, answer) {
            Ok(response) => self.on_response(setup, asked, answer, response, place, out),
            Err(fault) => ReplyOutcome::Ignored(ReqIgnored::Malformed(place_of(fault.at, place))),
        }
    }
}
