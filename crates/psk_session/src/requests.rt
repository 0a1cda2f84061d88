ghost use Rattle.std.specs.Prelude.{◌≡◌, ◌≤◌, ◌+◌, ◌∷◌, [], length};
ghost use Rattle.spdm_grammar.specs.Message.RequestMessage.{PskFinish};
ghost use Rattle.spdm_grammar.specs.Message.{request_message};
ghost use Rattle.spdm_grammar.specs.Requests.{canonical_request, IsSoundRequest};
ghost use Rattle.requester_machine.specs.Sending.{inner_request, inner_data, operation_of};
ghost use Rattle.spdm_grammar.specs.declared.names.TheConstants.{MAX_APP_DATA_LEN};

use session_keys::APP_DATA;
use spdm_basis::{Frame, RecordFrame};
use spdm_codec::write_request;
use spdm_grammar::Request;
use spdm_grammar::names::key_operation::{UPDATE_ALL_KEYS, UPDATE_KEY};
use spdm_grammar::names::message_type::SPDM;
use spdm_grammar::names::request_code::{END_SESSION, GET_MEASUREMENTS, HEARTBEAT, KEY_UPDATE};
use spdm_grammar::names::spdm_version::V1_2;

// The operation that updates the request key, or all keys.
pub fn operation_of(all: bool) -> u8
    ensures { result ≡ operation_of all }
{
    if all { UPDATE_ALL_KEYS } else { UPDATE_KEY }
}

// Overwrites `out` with PSK_FINISH with these verify data.
pub fn write_finish(verify: &[u8], out: &mut Frame)
    requires { length verify.now ≤ 48 }
    ensures value { out.new ≡ canonical_request (PskFinish verify.now) }
    ensures size { length out.new ≡ length verify.now + 4 }
{
    let _ = write_request(&Request::PskFinish { verify }, verify.len(), out);
}

// Overwrites `out` with the inner message of a request of four bytes, by its code and its two parameters.
fn write_four(code: u8, first: u8, second: u8, out: &mut RecordFrame)
    ensures value { out.new ≡ SPDM ∷ V1_2 ∷ code ∷ first ∷ second ∷ [] }
    ensures size { length out.new ≡ 5 }
{
    out.clear();
    let _ = out.extend(&[SPDM, V1_2, code, first, second]);
}

// Overwrites `out` with the inner message of a request of at most six bytes. A function of its own, since it zeroes a
// message-sized buffer.
fn write_any(request: &Request<'_>, out: &mut RecordFrame)
    requires sound { IsSoundRequest 0 (request_message request.now) }
    requires short { length (canonical_request (request_message request.now)) ≤ 6 }
    ensures value { out.new ≡ inner_request (request_message request.now) }
    ensures size { length out.new ≤ 7 }
{
    let mut message = Frame::new();
    let _ = write_request(request, 0, &mut message);
    out.clear();
    let _ = out.extend(&[SPDM]);
    let _ = out.extend(message.as_slice());
}

// Overwrites `out` with the inner message of a request of four or six bytes.
pub fn write_inner_request(request: &Request<'_>, out: &mut RecordFrame)
    requires sound { IsSoundRequest 0 (request_message request.now) }
    requires short { length (canonical_request (request_message request.now)) ≤ 6 }
    ensures value { out.new ≡ inner_request (request_message request.now) }
    ensures size { length out.new ≤ 7 }
{
    match request {
        Request::Heartbeat => write_four(HEARTBEAT, 0, 0, out),
        Request::KeyUpdate { op, tag } => write_four(KEY_UPDATE, *op, *tag, out),
        Request::GetMeasurements { op } => write_four(GET_MEASUREMENTS, 0, *op, out),
        Request::EndSession => write_four(END_SESSION, 0, 0, out),
        _ => write_any(request, out),
    }
}

// Overwrites `out` with the inner message of application data.
pub fn write_inner_data(bytes: &[u8], out: &mut RecordFrame)
    requires { length bytes.now ≤ MAX_APP_DATA_LEN }
    ensures value { out.new ≡ inner_data bytes.now }
    ensures size { length out.new ≤ 1025 }
{
    out.clear();
    let _ = out.extend(&[APP_DATA]);
    let _ = out.extend(bytes);
}
