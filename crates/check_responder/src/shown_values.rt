ghost use Rattle.std.specs.Prelude.{◌≡◌, ◌≤◌, ◌<◌, ◌^◌, [], ◌++◌, Some, length};
ghost use Rattle.std.specs.Option.{option_map};
ghost use Rattle.responder_core.specs.Free.{IsFree};
ghost use Rattle.responder_machine.specs.Answer.{Free};
ghost use Rattle.spdm_basis.specs.Sizes.{hash_size};
ghost use Rattle.spdm_grammar.specs.Fields.{zeros};
ghost use Rattle.spdm_grammar.specs.Message.{request_message};
ghost use Rattle.spdm_grammar.specs.Requests.{request_in};
ghost use Rattle.check_responder.specs.JudgedResponder.{AreLonger, IsLongerContext, IsLongerOpaque};
ghost use Rattle.check_laws.specs.AnswersShown.{lengthened};
ghost use Rattle.spdm_grammar.specs.declared.names.TheConstants.{MAX_OPAQUE_LEN};

use responder_core::FreeValues;
use spdm_codec::read_request;
use spdm_grammar::names::{MAX_MESSAGE_SIZE, MAX_OPAQUE_LEN};
use spdm_grammar::{HashAlg, Request};

/// The most bytes of an SPDM message.
pub(crate) const MOST_BYTES: usize = MAX_MESSAGE_SIZE as usize;

// As many zeros as a value may have that makes an answer longer: a hash has at most 48 bytes.
const ZEROS: [u8; 4144] = [0; 4144];

// So many zeros.
pub(crate) fn zeros(count: usize) -> &'static [u8]
    requires { count ≤ 4144 }
    ensures { result.now ≡ zeros count }
{
    &ZEROS[..count]
}

/// The request that a message is, where a hash has so many bytes.
pub(crate) fn request_of(message: &[u8], hash_len: usize) -> Option<Request<'_>>
    ensures { option_map request_message result ≡ request_in hash_len message.now }
{
    match read_request(message, hash_len) {
        Ok(request) => Some(request),
        Err(_) => None,
    }
}

// These values with another context.
fn with_context<'a>(values: FreeValues<'a>, context: &'a [u8]) -> FreeValues<'a>
    requires { length context.now < 2 ^ 16 }
    ensures { (f : Free) → IsFree values.entry f
        → IsFree result (record f { context = context.now }) }
{
    FreeValues {
        id: values.id,
        context,
        exchange_opaque: values.exchange_opaque,
        nonce: values.nonce,
        measured_opaque: values.measured_opaque,
        handle: values.handle,
        reply: values.reply,
        pad: values.pad,
    }
}

// These values with other opaque data of MEASUREMENTS.
fn with_opaque<'a>(values: FreeValues<'a>, opaque: &'a [u8]) -> FreeValues<'a>
    requires { length opaque.now ≤ MAX_OPAQUE_LEN }
    ensures { (f : Free) → IsFree values.entry f
        → IsFree result (record f { measured_opaque = opaque.now }) }
{
    FreeValues {
        id: values.id,
        context: values.context,
        exchange_opaque: values.exchange_opaque,
        nonce: values.nonce,
        measured_opaque: opaque,
        handle: values.handle,
        reply: values.reply,
        pad: values.pad,
    }
}

// A context of so many bytes more than a hash has; none above 4,096 more.
fn longer_context<'a>(values: FreeValues<'a>, hash: HashAlg, more: usize) -> Option<FreeValues<'a>>
    ensures { (f : Free) → IsFree values.entry f → f.context ≡ zeros (hash_size hash)
        → IsLongerContext (record f { context = f.context ++ zeros more }) result }
{
    if more > MOST_BYTES {
        return None;
    }
    Some(with_context(values, zeros(hash.size() + more)))
}

// Opaque data of so many bytes; none above 1,024.
fn longer_opaque<'a>(values: FreeValues<'a>, more: usize) -> Option<FreeValues<'a>>
    ensures { (f : Free) → IsFree values.entry f → f.measured_opaque ≡ []
        → IsLongerOpaque (record f { measured_opaque = f.measured_opaque ++ zeros more }) result }
{
    if more > MAX_OPAQUE_LEN {
        return None;
    }
    Some(with_opaque(values, zeros(more)))
}

/// Values that make the answer to a request so many bytes longer; `None` where they would be too long.
pub(crate) fn lengthened<'a>(
    values: FreeValues<'a>,
    hash: HashAlg,
    request: &Request<'_>,
    more: usize,
) -> Option<FreeValues<'a>>
    ensures { (f : Free) → IsFree values.entry f → f.context ≡ zeros (hash_size hash)
        → f.measured_opaque ≡ [] → AreLonger (request_message request.now)
        (lengthened f (Some (request_message request.now)) more) result }
{
    match request {
        Request::PskExchange(_) => longer_context(values, hash, more),
        Request::GetMeasurements { .. } => longer_opaque(values, more),
        _ => Some(values),
    }
}
