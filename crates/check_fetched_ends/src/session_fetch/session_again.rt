ghost use Rattle.std.specs.Prelude.{◌≡◌, ◌≤◌, IfSome};
ghost use Rattle.responder_core.specs.Connected.{StandsFor};
ghost use Rattle.responder_core.specs.Setup.{IsSetUp};
ghost use Rattle.check_fetched_ends.specs.AgainRead.{IsKeptFor, IsPreparedAgain, holds_large};
ghost use Rattle.check_fetched_ends.specs.Prepared.{operation_in};
ghost use Rattle.responder_machine.specs.History.{History};
ghost use Rattle.responder_machine.specs.Session.{session_of};
ghost use Rattle.responder_machine.specs.Setup.{RspSetup};
ghost use Rattle.spdm_grammar.specs.Requests.{request_in};
ghost use Rattle.spdm_grammar.specs.declared.names.TheConstants.{MAX_MESSAGE_SIZE};

use crate::session_fetch::in_session::{InSession, MOST_BYTES};
use check_late_laws::LargeAnswer;
use responder_core::{Connection, Setup, record_id};
use session_keys::{behind_type, byte_at};
use spdm_basis::{Frame, RecordFrame};
use spdm_codec::read_request;
use spdm_grammar::Request;
use spdm_grammar::names::error_number::LARGE_RESPONSE;
use spdm_grammar::names::message_type::SPDM;
use spdm_grammar::names::response_code::ERROR;

// What stands in a chunk beside the bytes that it holds.
const CHUNK_FIELDS: u32 = 12;

// Where the handle stands in an inner message that is LargeResponse.
const HANDLE_AT: usize = 5;

/// What is kept of a large response that is fetched late in a session, and the handle under which it goes.
#[derive(Drop)]
pub(crate) struct LateResponse {
    pub(crate) fetched: InSession,
    pub(crate) handle: u8,
}

// Whether an inner message holds LargeResponse.
fn holds_large(inner: &[u8]) -> bool
    ensures { result ≡ holds_large inner.now }
{
    byte_at(inner, 0) == SPDM && (byte_at(inner, 2) == ERROR && byte_at(inner, 3) == LARGE_RESPONSE)
}

// The operation that a message asks for, if it is GET_MEASUREMENTS, where a hash has `hash_len` bytes.
fn asked_operation(message: &[u8], hash_len: usize) -> Option<u8>
    ensures { result ≡ operation_in (request_in hash_len message.now) }
{
    match read_request(message, hash_len) {
        Ok(Request::GetMeasurements { op }) => Some(op),
        _ => None,
    }
}

// What is kept of the large response to a message in the session with this RspSessionID, where it is fetched from now
// on; `None` where that is no GET_MEASUREMENTS whose answer may be sent in chunks.
fn kept_in(connection: &Connection, setup: &Setup<'_>, id: u16, message: &[u8]) -> Option<InSession>
    ensures kept { (r : RspSetup) (h : History) → IsSetUp setup.now r → StandsFor connection.now r h
        → IsKeptFor r (session_of id h) id message.now result }
    ensures few { IfSome result (λ fetched. fetched.least ≤ MAX_MESSAGE_SIZE) }
{
    let terms = connection.session_terms(id)?;
    let transfer = terms.common.to_requester.transfer;
    if !terms.common.chunk || transfer <= CHUNK_FIELDS {
        return None;
    }
    let max = terms.common.to_requester.max as usize;
    let least = transfer as usize + 1;
    let most = if max > MOST_BYTES { MOST_BYTES } else { max };
    if least > most {
        return None;
    }
    let op = asked_operation(message, terms.choice.hash.size())?;
    if setup.inventory.record(op, &mut Frame::new()).is_err() {
        return None;
    }
    Some(InSession {
        answer: LargeAnswer::new(),
        id,
        least,
        most,
        op,
        left: true,
    })
}

/// What is kept of a large response that is fetched late in the session of a record, which is the last one that was
/// taken there, and this its reply: that is LargeResponse to GET_MEASUREMENTS. `None` where it is not.
pub(crate) fn prepared_again(
    connection: &Connection,
    setup: &Setup<'_>,
    request: &[u8],
    answer: &[u8],
) -> Option<LateResponse>
    ensures kept { (r : RspSetup) (h : History) → IsSetUp setup.now r → StandsFor connection.now r h
        → IsPreparedAgain r h request.now answer.now result }
    ensures few { IfSome result (λ again. again.fetched.least ≤ MAX_MESSAGE_SIZE) }
{
    if connection.repeats_ended(request) {
        return None;
    }
    let mut inner = RecordFrame::new();
    let mut reply = RecordFrame::new();
    if !connection.read_last(request, answer, &mut inner, &mut reply) {
        return None;
    }
    if !holds_large(reply.as_slice()) {
        return None;
    }
    let message = behind_type(inner.as_slice());
    let fetched = kept_in(connection, setup, record_id(request).rsp, message)?;
    let handle = byte_at(reply.as_slice(), HANDLE_AT);
    Some(LateResponse { fetched, handle })
}
