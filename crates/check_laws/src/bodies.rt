ghost use Rattle.std.specs.Prelude.{◌≡◌, ◌==◌, drop, slice_index};
ghost use Rattle.std.specs.Bool.{Decides};
ghost use Rattle.spdm_grammar.specs.Message.RequestMessage.{GetVersion};
ghost use Rattle.spdm_grammar.specs.Requests.{canonical_request};
ghost use Rattle.spdm_machine.specs.Bodies.{clear_body};
ghost use Rattle.spdm_grammar.specs.declared.names.message_type.TheConstants.{SECURED, SPDM};

use spdm_grammar::names::message_type::{SECURED, SPDM};

// GET_VERSION in the clear, as a requester sends it.
const GET_VERSION: &[u8] = &[SPDM, 0x10, 0x84, 0, 0];

// A byte of a body, and 0 after its end.
pub fn byte_at(body: &[u8], at: usize) -> u8
    ensures { result ≡ slice_index body.now at }
{
    match body.get(at) {
        Some(&byte) => byte,
        None => 0,
    }
}

// Whether a body is an SPDM message in the clear.
pub fn is_clear(body: &[u8]) -> bool
    ensures { result ≡ (slice_index body.now 0 == SPDM) }
{
    byte_at(body, 0) == SPDM
}

// Whether it is a secured record.
pub fn is_secured(body: &[u8]) -> bool
    ensures { result ≡ (slice_index body.now 0 == SECURED) }
{
    byte_at(body, 0) == SECURED
}

// The bytes after the first one, if there is one.
pub fn rest_of(body: &[u8]) -> &[u8]
    ensures { result.now ≡ drop 1 body.now }
{
    match body.split_first() {
        Some((_, rest)) => rest,
        None => &[],
    }
}

// The bytes from a place on; none where there are fewer.
pub fn bytes_from(body: &[u8], at: usize) -> &[u8]
    ensures { result.now ≡ drop at body.now }
{
    match body.get(at..) {
        Some(bytes) => bytes,
        None => &[],
    }
}

// Whether a body is GET_VERSION, as a requester sends it.
pub fn is_get_version(body: &[u8]) -> bool
    ensures { Decides result (body.now ≡ clear_body (canonical_request GetVersion)) }
{
    body == GET_VERSION
}
