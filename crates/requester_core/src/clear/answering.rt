ghost use Rattle.std.specs.Prelude.{◌≡◌, ◌≤◌, ◌==◌, ◌&&◌, ℕ, List, Ok, Some, length, slice_index, if◌then◌else◌};
ghost use Rattle.negotiate.specs.Capabilities.{common_of};
ghost use Rattle.negotiate.specs.Offer.{offer_of};
ghost use Rattle.negotiate.specs.Versions.{first_of_1_2, version_entries};
ghost use Rattle.requester_machine.specs.Holds.{Holds};
ghost use Rattle.requester_machine.specs.Answers as answers;
ghost use Rattle.requester_machine.specs.Answers.{algorithms_led, caps_led, error_led, is_done, is_refused, may_be_large, measured_led, offer_led, stopped, version_led};
ghost use Rattle.requester_machine.specs.ClearAnswers.{reading_of};
ghost use Rattle.requester_machine.specs.Commands.{Free};
ghost use Rattle.requester_machine.specs.History.{History, connection_terms, negotiation_of};
ghost use Rattle.requester_machine.specs.History.Effect.{Answers, Refuses};
ghost use Rattle.requester_machine.specs.Setup.{ReqSetup, requester_caps};
ghost use Rattle.requester_machine.specs.UnderWay.{IsAwaited};
ghost use Rattle.spdm_codec.specs.Answer.{Gives};
ghost use Rattle.spdm_grammar.specs.Message.{OfferMessage, RequestMessage, measured_message, reply_message, response_message};
ghost use Rattle.spdm_grammar.specs.Message.RequestMessage.{GetCapabilities, GetMeasurements, GetVersion, NegotiateAlgorithms};
ghost use Rattle.spdm_grammar.specs.Message.ResponseMessage.{Algorithms, Capabilities, Measurements};
ghost use Rattle.spdm_grammar.specs.Requests.{canonical_request};
ghost use Rattle.spdm_grammar.specs.declared.messages.capabilities.Caps.{Caps};
ghost use Rattle.spdm_grammar.specs.declared.names.TheConstants.{MAX_MESSAGE_SIZE};
ghost use Rattle.spdm_grammar.specs.declared.names.error_number.TheConstants.{LARGE_RESPONSE};
ghost use Rattle.negotiate.specs.Choosing.{agreed};
ghost use Rattle.requester_core.specs.ReplyOutcome.{IsAnswered, IsLed};
ghost use Rattle.requester_core.specs.Negotiating.{IsUpTo};
ghost use Rattle.requester_core.specs.Setup.{IsSetUp};
ghost use Rattle.requester_core.specs.ClearState.{Shows, StandsFor};
ghost use Rattle.requester_core.specs.Outstanding.{IsClearRequest, kind_of};

use crate::clear::commands::is_too_long;
use crate::{ClearState, PendingRequest, ReplyOutcome, Setup, TransferMode};
use negotiate::{Common, agrees, choose_version, common, own_offer};
use spdm_basis::Frame;
use spdm_codec::read_response;
use spdm_grammar::names::error_number::LARGE_RESPONSE;
use spdm_grammar::{
    AlgReply, Caps, Event, Finished, Malformed, Measured, ReqIgnored, Request, Response, Stop,
};

// The length of the own NEGOTIATE_ALGORITHMS.
const OFFER_LEN: usize = 48;

// The first byte of extended error data: the handle of LargeResponse.
fn first_byte(bytes: &[u8]) -> u8
    ensures { result ≡ slice_index bytes.now 0 }
{
    match bytes {
        [first, ..] => *first,
        [] => 0,
    }
}

// How many measurements are told.
fn measured_number(op: u8, measured: &Measured<'_>) -> u8
    ensures { result ≡ answers.measured_number op (measured_message measured.now) }
{
    if op == 0 {
        measured.total
    } else {
        measured.blocks
    }
}

impl ClearState {
    // The response that bytes encode as an answer to what is asked, or their first fault.
    pub(crate) fn read<'a>(
        &self,
        asked: PendingRequest,
        bytes: &'a [u8],
    ) -> Result<Response<'a>, Malformed>
        ensures { (h : History) (request : RequestMessage) → Shows self.now h
            → IsClearRequest request → kind_of request ≡ asked
            → Gives response_message result (reading_of h request bytes.now) }
    {
        let hash_len = self.negotiating.choice().hash.size();
        read_response(bytes, hash_len, asked.has_summary())
    }

    // The request was refused with an ERROR of this code.
    pub(crate) fn refuse(&mut self, asked: PendingRequest, code: u8) -> ReplyOutcome
        ensures { (h : History) (request : RequestMessage) (out : List ℕ) → Shows self.old h
            → IsClearRequest request → kind_of request ≡ asked
            → IsLed h (Ok (is_refused code (Refuses request))) result self.old self.new out }
    {
        self.negotiating.refuse(asked.negotiates());
        self.outgoing.clear_outstanding();
        ReplyOutcome::Rests(Event::Refused(code))
    }

    // The negotiation stops.
    fn stop(&mut self, why: Stop) -> ReplyOutcome
        ensures { (h : History) (out : List ℕ) → Shows self.old h
            → IsLed h (Ok (stopped why)) result self.old self.new out }
    {
        self.negotiating.stop();
        self.outgoing.clear_outstanding();
        ReplyOutcome::Rests(Event::Stopped(why))
    }

    // Whether an ERROR of this code calls for a large response.
    fn is_large(&self, asked: PendingRequest, code: u8) -> bool
        ensures { (h : History) (request : RequestMessage) → Shows self.now h
            → IsClearRequest request → kind_of request ≡ asked
            → result ≡ (code == LARGE_RESPONSE && may_be_large request
            && (connection_terms h).common.chunk) }
    {
        let chunk = self.negotiating.common().chunk;
        code == LARGE_RESPONSE && asked.may_be_large() && chunk
    }

    // ERROR: LargeResponse calls for the first chunk of a large response; any other refuses the request.
    pub(crate) fn on_error(
        &mut self,
        asked: PendingRequest,
        code: u8,
        extended: &[u8],
        out: &mut Frame,
    ) -> ReplyOutcome
        ensures { (h : History) (request : RequestMessage) → Shows self.old h
            → self.old.outgoing.request ≡ canonical_request request
            → IsClearRequest request → kind_of request ≡ asked
            → IsUpTo request (negotiation_of h)
            → IsLed h (Ok (error_led h request code extended.now)) result self.old self.new
            out.new }
    {
        if self.is_large(asked, code) {
            let mode = TransferMode::ForChunk {
                handle: first_byte(extended),
                number: 0,
            };
            return ReplyOutcome::Large {
                tag: self.outgoing.send(asked, mode, 0, out),
            };
        }
        self.refuse(asked, code)
    }

    // VERSION: the own capabilities are told.
    pub(crate) fn on_version(
        &mut self,
        setup: &Setup<'_>,
        answer: &[u8],
        entries: &[u8],
        out: &mut Frame,
    ) -> ReplyOutcome
        ensures { (q : ReqSetup) (h : History) → IsSetUp setup.now q → Shows self.old h
            → self.old.outgoing.request ≡ canonical_request GetVersion
            → IsUpTo GetVersion (negotiation_of h) → length answer.now ≤ MAX_MESSAGE_SIZE
            → IsLed h (Ok (version_led q h answer.now
            (first_of_1_2 (version_entries entries.now)))) result self.old self.new out.new }
    {
        if choose_version(entries).is_none() {
            return self.stop(Stop::NoVersion);
        }
        self.negotiating
            .take_version(self.outgoing.request(), answer);
        self.outgoing
            .keep(&Request::GetCapabilities(setup.caps()), 0);
        ReplyOutcome::Sends {
            tag: self
                .outgoing
                .send(PendingRequest::Capabilities, TransferMode::Whole, 0, out),
        }
    }

    // CAPABILITIES: what both ends can do is settled, and the own algorithms are offered.
    pub(crate) fn on_capabilities(
        &mut self,
        setup: &Setup<'_>,
        answer: &[u8],
        theirs: &Caps,
        out: &mut Frame,
    ) -> ReplyOutcome
        ensures { (q : ReqSetup) (h : History) (caps : Caps) → IsSetUp setup.now q
            → Shows self.old h
            → caps ≡ requester_caps q
            → self.old.outgoing.request ≡ canonical_request (GetCapabilities caps)
            → IsUpTo (GetCapabilities caps) (negotiation_of h)
            → reading_of h (GetCapabilities caps) answer.now ≡ Ok (Capabilities theirs.now)
            → IsLed h (Ok (caps_led q h (Answers (GetCapabilities caps) answer.now)
            (common_of caps theirs.now))) result self.old self.new out.new }
    {
        let common = match common(&setup.caps(), theirs) {
            Ok(common) => common,
            Err(fault) => return self.stop(Stop::Caps(fault)),
        };
        self.offer(setup, answer, common, out)
    }

    // What both ends can do was settled by CAPABILITIES: the own algorithms are offered.
    fn offer(
        &mut self,
        setup: &Setup<'_>,
        answer: &[u8],
        common: Common,
        out: &mut Frame,
    ) -> ReplyOutcome
        ensures { (q : ReqSetup) (h : History) (caps theirs : Caps) → IsSetUp setup.now q
            → Shows self.old h → caps ≡ requester_caps q
            → self.old.outgoing.request ≡ canonical_request (GetCapabilities caps)
            → IsUpTo (GetCapabilities caps) (negotiation_of h)
            → reading_of h (GetCapabilities caps) answer.now ≡ Ok (Capabilities theirs)
            → common_of caps theirs ≡ Ok common
            → IsLed h (Ok (offer_led h (Answers (GetCapabilities caps) answer.now) common
            (offer_of q.suites common.to_responder.transfer))) result self.old self.new out.new }
    {
        let transfer = common.to_responder.transfer;
        let Some(offer) = own_offer(setup.suites, transfer) else {
            return self.stop(Stop::NoChoice);
        };
        if is_too_long(&common, OFFER_LEN) {
            return self.stop(Stop::TooLong);
        }
        self.negotiating
            .take_capabilities(self.outgoing.request(), answer, common);
        self.outgoing.keep(&Request::NegotiateAlgorithms(offer), 0);
        ReplyOutcome::Sends {
            tag: self
                .outgoing
                .send_request(transfer, PendingRequest::Algorithms, out),
        }
    }

    // ALGORITHMS: they choose of what was offered.
    pub(crate) fn on_algorithms(
        &mut self,
        setup: &Setup<'_>,
        answer: &[u8],
        reply: &AlgReply<'_>,
    ) -> ReplyOutcome
        ensures { (q : ReqSetup) (h : History) (offer : OfferMessage) (out : List ℕ)
            → IsSetUp setup.now q → Shows self.old h
            → self.old.outgoing.request ≡ canonical_request (NegotiateAlgorithms offer)
            → IsUpTo (NegotiateAlgorithms offer) (negotiation_of h)
            → offer_of q.suites (connection_terms h).common.to_responder.transfer ≡ Some offer
            → length answer.now ≤ MAX_MESSAGE_SIZE
            → reading_of h (NegotiateAlgorithms offer) answer.now
            ≡ Ok (Algorithms (reply_message reply.now))
            → IsLed h (Ok (algorithms_led (Answers (NegotiateAlgorithms offer) answer.now)
            (agreed offer (reply_message reply.now)))) result self.old self.new out }
    {
        let transfer = self.negotiating.common().to_responder.transfer;
        let Some(offer) = own_offer(setup.suites, transfer) else {
            return self.stop(Stop::NoChoice);
        };
        let Ok(choice) = agrees(&offer, reply) else {
            return self.stop(Stop::NoChoice);
        };
        self.negotiating
            .take_algorithms(self.outgoing.request(), answer, choice);
        self.outgoing.clear_outstanding();
        ReplyOutcome::Rests(Event::Done(Finished::Connected))
    }

    // MEASUREMENTS: the command is done.
    pub(crate) fn on_measurements(&mut self, op: u8, measured: &Measured<'_>) -> ReplyOutcome
        ensures { (h : History) (answer out : List ℕ) → Shows self.old h
            → length answer ≤ MAX_MESSAGE_SIZE
            → reading_of h (GetMeasurements op) answer
            ≡ Ok (Measurements (measured_message measured.now))
            → IsLed h (Ok (measured_led op (measured_message measured.now)
            (Answers (GetMeasurements op) answer))) result self.old self.new out }
    {
        self.brought.clear();
        let _ = self.brought.extend(measured.block_bytes);
        self.outgoing.clear_outstanding();
        ReplyOutcome::Rests(Event::Done(Finished::Measured(measured_number(op, measured))))
    }
}
