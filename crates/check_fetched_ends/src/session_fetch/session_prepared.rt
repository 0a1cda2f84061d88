ghost use Rattle.std.specs.Prelude.{◌≡◌};
ghost use Rattle.responder_core.specs.Connected.{StandsFor};
ghost use Rattle.responder_core.specs.Setup.{IsSetUp};
ghost use Rattle.check_fetched_ends.specs.Prepared.{IsPreparedFor, operation_in, operation_of};
ghost use Rattle.responder_machine.specs.History.{History};
ghost use Rattle.responder_machine.specs.Setup.{RspSetup};
ghost use Rattle.spdm_grammar.specs.Message.{request_message};
ghost use Rattle.spdm_grammar.specs.Requests.{request_in};

use crate::session_fetch::in_session::InSession;
use check_late_laws::LargeAnswer;
use responder_core::{Connection, Setup, record_id};
use session_keys::behind_type;
use spdm_basis::{Frame, RecordFrame};
use spdm_codec::read_request;
use spdm_grammar::Request;
use spdm_grammar::names::MAX_MESSAGE_SIZE;

// The most bytes of an SPDM message.
const MOST_BYTES: usize = MAX_MESSAGE_SIZE as usize;

// What stands in a chunk beside the bytes that it holds.
const CHUNK_FIELDS: u32 = 12;

// The operation that a request asks for, if it is GET_MEASUREMENTS.
fn operation_of(request: Request<'_>) -> Option<u8>
    ensures { result ≡ operation_of (request_message request.entry) }
{
    match request {
        Request::GetMeasurements { op } => Some(op),
        _ => None,
    }
}

// The operation that a message asks for, if it is GET_MEASUREMENTS, where a hash has `hash_len` bytes.
fn operation_in(message: &[u8], hash_len: usize) -> Option<u8>
    ensures { result ≡ operation_in (request_in hash_len message.now) }
{
    match read_request(message, hash_len) {
        Ok(request) => operation_of(request),
        Err(_) => None,
    }
}

/// What is kept of a large response that is about to be fetched in the session of a record, if that is GET_MEASUREMENTS
/// and its answer may be sent in chunks; `None` where it is not, or its session does not open it: then no answer to it
/// is LargeResponse.
pub(crate) fn prepared(
    connection: &Connection,
    setup: &Setup<'_>,
    request: &[u8],
) -> Option<InSession>
    ensures { (r : RspSetup) (h : History) → IsSetUp setup.now r → StandsFor connection.now r h
        → IsPreparedFor r h request.now result }
{
    let mut inner = RecordFrame::new();
    if !connection.reads_request(request, &mut inner) {
        return None;
    }
    let id = record_id(request).rsp;
    let terms = connection.session_terms(id)?;
    if !terms.common.chunk || terms.common.to_requester.transfer <= CHUNK_FIELDS {
        return None;
    }
    let message = behind_type(inner.as_slice());
    let op = operation_in(message, terms.choice.hash.size())?;
    if setup.inventory.record(op, &mut Frame::new()).is_err() {
        return None;
    }
    let max = terms.common.to_requester.max as usize;
    Some(InSession {
        answer: LargeAnswer::new(),
        id,
        least: terms.common.to_requester.transfer as usize + 1,
        most: if max > MOST_BYTES { MOST_BYTES } else { max },
        op,
        left: true,
    })
}
