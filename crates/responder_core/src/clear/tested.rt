//! The refusals of a request in the clear by its contents (`contents_fault`), and then by its answer (`answer_fault`),
//! in their order; the predicates are those of `contents.rt`. The refusals by form, which come before, are in `form.rt`
//! of responder_rules, and those in a session in `judging.rt` of responder_session.
ghost use Rattle.std.specs.Prelude.{◌≡◌, ◌≤◌, false, true, length, ℕ, List, None, Some, IfOk, OnOk};
ghost use Rattle.responder_machine.specs.Answer.{Free, answer_bytes};
ghost use Rattle.responder_machine.specs.Place as places;
ghost use Rattle.responder_machine.specs.Place.{place_terms};
ghost use Rattle.responder_machine.specs.Refusal as refusal;
ghost use Rattle.responder_machine.specs.Setup.{RspSetup};
ghost use Rattle.responder_machine.specs.Turn.{Turn};
ghost use Rattle.responder_rules.specs.LargeAnswer as large_answers;
ghost use Rattle.responder_rules.specs.Place.{IsPlace, where_of};
ghost use Rattle.spdm_basis.specs.Tests.{first_of_tests};
ghost use Rattle.spdm_grammar.specs.Codes.{code_for};
ghost use Rattle.spdm_grammar.specs.Message.{request_message};
ghost use Rattle.responder_core.specs.Answering.{is_made_here};
ghost use Rattle.responder_core.specs.Contents.{asks_missing};
ghost use Rattle.responder_core.specs.Free.{IsFree};
ghost use Rattle.responder_core.specs.Refused.{IsClear, IsPendingFor, IsTested, tests_of_answer, tests_of_request};
ghost use Rattle.responder_core.specs.Setup.{IsSetUp};
ghost use Rattle.responder_core.specs.ClearState.{StandsFor, place_at};

use crate::clear::contents::{
    are_caps_refused, code_of, has_no_block, is_exchange_refused, is_offer_refused,
};
use crate::{ClearState, FreeValues, Refused, Setup};
use responder_rules::{LargeAnswer, Place, Where};
use spdm_basis::Frame;
use spdm_grammar::names::MAX_SESSIONS;
use spdm_grammar::names::request_code::PSK_EXCHANGE;
use spdm_grammar::{ErrorCode, Request};

// The maximum length of a request: the own transfer size, and the own max size where it arrived in chunks.
fn limit_of(setup: &Setup<'_>, at: Where) -> u32
    ensures { (r : RspSetup) → IsSetUp setup.now r → result ≡ refusal.limit_of r (where_of at) }
{
    match at {
        Where::InClear | Where::InSession => setup.transfer,
        Where::InChunks => setup.max,
    }
}

// Whether it is CHUNK_GET with another handle than that of the pending answer, or not the next number.
fn is_get_refused(large: &LargeAnswer, request: &Request<'_>) -> bool
    ensures { (p : places.Place)
        → large_answers.StandsFor large.now (place_terms p).common.to_requester.transfer p.turns
        → IsPendingFor p (request_message request.now)
        → result ≡ refusal.is_get_refused p (Some (request_message request.now)) }
{
    match request {
        Request::ChunkGet { handle, number } => large.asked(*handle, *number).is_none(),
        _ => false,
    }
}

// The error code for a response to a request of this code, or for the session that it would begin; `held` counts
// established sessions.
fn answer_fault(place: &Place, code: u8, len: usize, held: u8) -> Option<ErrorCode>
    ensures { (p : places.Place) (answer : List ℕ) → IsPlace place.now p → len ≡ length answer
        → p.past_handshake ≡ held → result ≡ first_of_tests (tests_of_answer p code answer) }
{
    if place.is_too_long(len) {
        return Some(ErrorCode::ResponseTooLarge);
    }
    if code == PSK_EXCHANGE && held == MAX_SESSIONS {
        return Some(ErrorCode::SessionLimitExceeded);
    }
    None
}

impl ClearState {
    // The code for which the contents of a request are refused, but for those of a chunk.
    fn contents_fault(
        &self,
        place: &Place,
        setup: &Setup<'_>,
        request: &Request<'_>,
    ) -> Option<ErrorCode>
        ensures value { (r : RspSetup) (p : places.Place) → IsSetUp setup.now r
            → IsPlace place.now p → large_answers.StandsFor self.now.large
            (place_terms p).common.to_requester.transfer p.turns
            → IsPendingFor p (request_message request.now)
            → result ≡ first_of_tests (tests_of_request r p (request_message request.now)) }
        ensures found { result ≡ None
            → asks_missing setup.now.inventory.now (request_message request.now) ≡ false }
    {
        if place.lacks_flag(code_of(request)) {
            return Some(ErrorCode::UnsupportedRequest);
        }
        if are_caps_refused(setup, request) {
            return Some(ErrorCode::InvalidRequest);
        }
        if is_offer_refused(setup, request) {
            return Some(ErrorCode::InvalidRequest);
        }
        if has_no_block(setup, request) {
            return Some(ErrorCode::InvalidRequest);
        }
        if is_exchange_refused(setup, place, request) {
            return Some(ErrorCode::InvalidRequest);
        }
        if is_get_refused(&self.large, request) {
            return Some(ErrorCode::InvalidRequest);
        }
        None
    }

    /// Checks a message at a place: returns the request, or why it is refused. Unless the request is refused, or is
    /// PSK_EXCHANGE, its response overwrites `answer`. Chunk sequence errors are not checked here. `held` counts
    /// established sessions.
    pub fn tested<'a>(
        &self,
        place: &Place,
        setup: &Setup<'_>,
        held: u8,
        message: &'a [u8],
        free: &FreeValues<'_>,
        answer: &mut Frame,
    ) -> Result<Request<'a>, Refused>
        ensures tested { (r : RspSetup) (turns : List Turn) (f : Free) → IsSetUp setup.now r
            → IsFree free.now f → StandsFor self.now turns
            → IsPlace place.now (place_at (where_of place.now.at) turns held)
            → IsClear (where_of place.now.at)
            → IsTested r (place_at (where_of place.now.at) turns held) message.now f result }
        ensures answer { (r : RspSetup) (turns : List Turn) (f : Free) → IsSetUp setup.now r
            → IsFree free.now f → StandsFor self.now turns
            → IsPlace place.now (place_at (where_of place.now.at) turns held)
            → IsClear (where_of place.now.at)
            → IfOk result (λ request. is_made_here (request_message request) ≡ true
            → answer.new ≡ answer_bytes r (place_at (where_of place.now.at) turns held)
            message.now f) }
    {
        let request = match place.read(limit_of(setup, place.at), message) {
            Ok(request) => request,
            Err(code) => return Err(Refused::with(code)),
        };
        if let Some(code) = self.contents_fault(place, setup, &request) {
            return Err(Refused::with(code));
        }
        let len = self.write_answer(place, setup, &request, free, answer);
        if let Some(code) = answer_fault(place, code_of(&request), len, held) {
            return Err(Refused {
                code,
                answer_len: len as u32,
            });
        }
        Ok(request)
    }
}
