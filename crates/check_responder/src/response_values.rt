ghost use Rattle.std.specs.Prelude.{◌≡◌, ◌-◌, ℕ, List, Some, drop, length, slice_index};
ghost use Rattle.byteorder.specs.Endian.{little_number};
ghost use Rattle.responder_core.specs.Free.{IsFree};
ghost use Rattle.responder_core.specs.Setup.{IsSetUp};
ghost use Rattle.responder_machine.specs.Answer.{Free, answer_bytes, request_at};
ghost use Rattle.responder_machine.specs.Place.{Place, place_terms};
ghost use Rattle.responder_machine.specs.Setup.{RspSetup};
ghost use Rattle.spdm_grammar.specs.Message.{request_message};
ghost use Rattle.spdm_grammar.specs.Responses.{response_in};
ghost use Rattle.spdm_machine.specs.Terms.{hash_len};
ghost use Rattle.check_responder.specs.JudgedResponder.{AreRead, AreShort};
ghost use Rattle.check_laws.specs.AnswersShown.{asks_summary, least_large, lengthened, values_in, values_in_error, with_fields};
ghost use Rattle.check_responder.specs.ShownBy.{IsPlaceOf};

use crate::answer_length::free_length;
use crate::shown_fields::with_fields;
use crate::shown_values::{lengthened, request_of};
use byteorder::{ByteOrder, LittleEndian};
use responder_core::{FreeValues, Setup};
use session_keys::byte_at;
use spdm_grammar::names::error_number::{LARGE_RESPONSE, RESPONSE_TOO_LARGE};
use spdm_grammar::names::response_code::ERROR;
use spdm_grammar::{HashAlg, Request};

/// What an answer is read by at a place: the hash that was chosen, the transfer size of the requester, and how many
/// bytes stand round an answer.
#[derive(Clone, Copy)]
pub(crate) struct AnswerPlace {
    pub(crate) hash: HashAlg,
    pub(crate) transfer: u32,
    pub(crate) round: u8,
}

// The length that ERROR ResponseTooLarge tells.
fn told_length(response: &[u8]) -> usize
    ensures { result ≡ little_number 4 (drop 4 response.now) }
{
    let bytes = [
        byte_at(response, 4),
        byte_at(response, 5),
        byte_at(response, 6),
        byte_at(response, 7),
    ];
    LittleEndian::read_u32(&bytes) as usize
}

// The least length of an answer that goes by LargeResponse.
fn least_large(at: AnswerPlace) -> usize
    ensures { (p : Place) → IsPlaceOf at p → result ≡ least_large p }
{
    (at.transfer as usize + 1).saturating_sub(at.round as usize)
}

// These values with another handle.
fn with_handle<'a>(values: FreeValues<'a>, handle: u8) -> FreeValues<'a>
    ensures { (f : Free) → IsFree values.entry f → IsFree result (record f { handle = handle }) }
{
    FreeValues {
        id: values.id,
        context: values.context,
        exchange_opaque: values.exchange_opaque,
        nonce: values.nonce,
        measured_opaque: values.measured_opaque,
        handle,
        reply: values.reply,
        pad: values.pad,
    }
}

// The values that make the answer to a request so long, where these make it shorter.
fn of_length<'a>(
    setup: &Setup<'_>,
    at: AnswerPlace,
    request: &Request<'_>,
    values: FreeValues<'a>,
    long: usize,
) -> Option<FreeValues<'a>>
    ensures { (r : RspSetup) (p : Place) (m : List ℕ) (f : Free) → IsSetUp setup.now r
        → IsPlaceOf at p → request_at p m ≡ Some (request_message request.now)
        → IsFree values.entry f → AreShort p f
        → AreRead r p m (lengthened f (Some (request_message request.now))
        (long - length (answer_bytes r p m f))) result }
{
    let least = free_length(setup, at.hash, request, &values);
    lengthened(values, at.hash, request, long.saturating_sub(least))
}

// The values that make the answer to a message so long, where these make it shorter.
fn long_values<'a>(
    setup: &Setup<'_>,
    at: AnswerPlace,
    message: &[u8],
    values: FreeValues<'a>,
    long: usize,
) -> Option<FreeValues<'a>>
    ensures { (r : RspSetup) (p : Place) (f : Free) → IsSetUp setup.now r → IsPlaceOf at p
        → IsFree values.entry f → AreShort p f
        → AreRead r p message.now (lengthened f (request_at p message.now)
        (long - length (answer_bytes r p message.now f))) result }
{
    match request_of(message, at.hash.size()) {
        Some(request) => of_length(setup, at, &request, values, long),
        None => Some(values),
    }
}

// The values that LargeResponse shows.
fn large_values<'a>(
    setup: &Setup<'_>,
    at: AnswerPlace,
    message: &[u8],
    values: FreeValues<'a>,
    handle: u8,
) -> Option<FreeValues<'a>>
    ensures { (r : RspSetup) (p : Place) (f : Free) → IsSetUp setup.now r → IsPlaceOf at p
        → IsFree values.entry f → AreShort p f
        → AreRead r p message.now (record (lengthened f (request_at p message.now)
        (least_large p - length (answer_bytes r p message.now f))) { handle = handle }) result }
{
    match long_values(setup, at, message, values, least_large(at)) {
        Some(long) => Some(with_handle(long, handle)),
        None => None,
    }
}

// The values that ERROR shows.
fn error_values<'a>(
    setup: &Setup<'_>,
    at: AnswerPlace,
    message: &[u8],
    values: FreeValues<'a>,
    response: &[u8],
) -> Option<FreeValues<'a>>
    ensures { (r : RspSetup) (p : Place) (f : Free) → IsSetUp setup.now r → IsPlaceOf at p
        → IsFree values.entry f → AreShort p f
        → AreRead r p message.now (values_in_error r p message.now f response.now) result }
{
    let code = byte_at(response, 2);
    if code == RESPONSE_TOO_LARGE {
        return long_values(setup, at, message, values, told_length(response));
    }
    if code == LARGE_RESPONSE {
        return large_values(setup, at, message, values, byte_at(response, 4));
    }
    Some(values)
}

/// The values in the fields of the response to a message.
pub(crate) fn field_values<'a>(
    hash: HashAlg,
    message: &[u8],
    values: FreeValues<'a>,
    response: &'a [u8],
) -> FreeValues<'a>
    ensures { (p : Place) (f : Free) → (place_terms p).choice.hash ≡ hash → IsFree values.entry f
        → IsFree result (with_fields f (request_at p message.now) (response_in
        (hash_len (place_terms p)) (asks_summary (request_at p message.now)) response.now)) }
{
    match request_of(message, hash.size()) {
        Some(request) => with_fields(values, hash.size(), &request, response),
        None => values,
    }
}

/// The values that a response to a message shows, where the others are the least ones. `None` where the answer at them
/// is longer than any, or has longer opaque data.
pub(crate) fn values_in<'a>(
    setup: &Setup<'_>,
    at: AnswerPlace,
    message: &[u8],
    values: FreeValues<'a>,
    response: &'a [u8],
) -> Option<FreeValues<'a>>
    ensures { (r : RspSetup) (p : Place) (f : Free) → IsSetUp setup.now r → IsPlaceOf at p
        → IsFree values.entry f → AreShort p f
        → AreRead r p message.now (values_in r p message.now f response.now) result }
{
    if byte_at(response, 1) == ERROR {
        return error_values(setup, at, message, values, response);
    }
    Some(field_values(at.hash, message, values, response))
}
