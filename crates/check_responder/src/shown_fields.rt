ghost use Rattle.std.specs.Prelude.{◌≡◌, ◌≤◌, ◌<◌, ◌^◌, IfSome, Some, ℕ, length};
ghost use Rattle.std.specs.Option.{option_map};
ghost use Rattle.responder_core.specs.Free.{IsFree};
ghost use Rattle.responder_machine.specs.Answer.{Free};
ghost use Rattle.spdm_grammar.specs.Message.{ExchangeMessage, request_message, response_message};
ghost use Rattle.spdm_grammar.specs.Message.RequestMessage.{GetMeasurements, PskExchange};
ghost use Rattle.spdm_grammar.specs.Responses.{response_in};
ghost use Rattle.check_responder.specs.JudgedResponder.{HasShortFields};
ghost use Rattle.check_laws.specs.AnswersShown.{asks_summary, with_fields};
ghost use Rattle.spdm_grammar.specs.declared.names.TheConstants.{MAX_OPAQUE_LEN};

use responder_core::FreeValues;
use spdm_codec::read_response;
use spdm_grammar::{ExchangeRsp, Measured, Request, Response, spelled_response_is_sound};

// Whether a request asks for a summary of the measurements.
fn asks_summary(request: &Request<'_>) -> bool
    ensures { result ≡ asks_summary (Some (request_message request.now)) }
{
    match request {
        Request::PskExchange(exchange) => exchange.summary == 1 || exchange.summary == 255,
        _ => false,
    }
}

// The response that bytes encode.
fn read_sound(reply: &[u8], hash_len: usize, summary: bool) -> Option<Response<'_>>
    ensures value { option_map response_message result ≡ response_in hash_len summary reply.now }
    ensures short { IfSome result (λ response. HasShortFields (response_message response)) }
{
    spelled_response_is_sound();
    match read_response(reply, hash_len, summary) {
        Ok(response) => Some(response),
        Err(_) => None,
    }
}

// The values in the fields of PSK_EXCHANGE_RSP.
fn with_exchange<'a>(values: FreeValues<'a>, rsp: &ExchangeRsp<'a>) -> FreeValues<'a>
    requires context { length rsp.now.context.now < 2 ^ 16 }
    requires opaque { length rsp.now.opaque.now ≤ MAX_OPAQUE_LEN }
    ensures { (f : Free) → IsFree values.entry f → IsFree result (record f {
      id = rsp.now.rsp_id;
      context = rsp.now.context.now;
      exchange_opaque = rsp.now.opaque.now;
    }) }
{
    FreeValues {
        id: rsp.rsp_id,
        context: rsp.context,
        exchange_opaque: rsp.opaque,
        nonce: values.nonce,
        measured_opaque: values.measured_opaque,
        handle: values.handle,
        reply: values.reply,
        pad: values.pad,
    }
}

// The values in the fields of MEASUREMENTS.
fn with_measured<'a>(values: FreeValues<'a>, measured: &Measured<'a>) -> FreeValues<'a>
    requires nonce { length measured.now.nonce.now ≡ 32 }
    requires opaque { length measured.now.opaque.now ≤ MAX_OPAQUE_LEN }
    ensures { (f : Free) → IsFree values.entry f → IsFree result (record f {
      nonce = measured.now.nonce.now;
      measured_opaque = measured.now.opaque.now;
    }) }
{
    let mut nonce = [0; 32];
    nonce.copy_from_slice(measured.nonce);
    FreeValues {
        id: values.id,
        context: values.context,
        exchange_opaque: values.exchange_opaque,
        nonce,
        measured_opaque: measured.opaque,
        handle: values.handle,
        reply: values.reply,
        pad: values.pad,
    }
}

// The values in the fields of a response to PSK_EXCHANGE.
fn with_exchanged<'a>(values: FreeValues<'a>, response: &Response<'a>) -> FreeValues<'a>
    requires { HasShortFields (response_message response.now) }
    ensures { (f : Free) (asked : ExchangeMessage) → IsFree values.entry f → IsFree result
        (with_fields f (Some (PskExchange asked)) (Some (response_message response.now))) }
{
    match response {
        Response::PskExchangeRsp(rsp) => with_exchange(values, rsp),
        _ => values,
    }
}

// The values in the fields of a response to GET_MEASUREMENTS.
fn with_measurements<'a>(values: FreeValues<'a>, response: &Response<'a>) -> FreeValues<'a>
    requires { HasShortFields (response_message response.now) }
    ensures { (f : Free) (op : ℕ) → IsFree values.entry f → IsFree result
        (with_fields f (Some (GetMeasurements op)) (Some (response_message response.now))) }
{
    match response {
        Response::Measurements(measured) => with_measured(values, measured),
        _ => values,
    }
}

// The values in the fields of a response to a request.
fn with_response<'a>(
    values: FreeValues<'a>,
    request: &Request<'_>,
    response: &Response<'a>,
) -> FreeValues<'a>
    requires { HasShortFields (response_message response.now) }
    ensures { (f : Free) → IsFree values.entry f → IsFree result
        (with_fields f (Some (request_message request.now))
        (Some (response_message response.now))) }
{
    match request {
        Request::PskExchange(_) => with_exchanged(values, response),
        Request::GetMeasurements { .. } => with_measurements(values, response),
        _ => values,
    }
}

/// The values in the fields of the response that answers a request, where a hash has so many bytes.
/// What it does not show stays as it is.
pub(crate) fn with_fields<'a>(
    values: FreeValues<'a>,
    hash_len: usize,
    request: &Request<'_>,
    reply: &'a [u8],
) -> FreeValues<'a>
    ensures { (f : Free) → IsFree values.entry f → IsFree result
        (with_fields f (Some (request_message request.now))
        (response_in hash_len (asks_summary (Some (request_message request.now))) reply.now)) }
{
    match read_sound(reply, hash_len, asks_summary(request)) {
        Some(response) => with_response(values, request, &response),
        None => values,
    }
}
