ghost use Rattle.std.specs.Prelude.{◌≡◌, ◌≤◌, drop, length};
ghost use Rattle.spdm_basis.specs.Sizes.{hash_size};
ghost use Rattle.requester_machine.specs.InnerMessages.{inner_fault};
ghost use Rattle.requester_machine.specs.Setup.{ReqSetup};
ghost use Rattle.psk_session.specs.Held.{Reads};
ghost use Rattle.psk_session.specs.Inner.{contents_of};

use crate::answers::read_answer;
use session_keys::{APP_DATA, behind_type, byte_at};
use spdm_grammar::names::MAX_APP_DATA_LEN;
use spdm_grammar::names::message_type::SPDM;
use spdm_grammar::{BadReply, Response};

// What an inner message holds: a response, or application data.
#[derive(Clone, Copy)]
pub enum Inner<'a> {
    Message(Response<'a>),
    Data(&'a [u8]),
}

// The fault of an inner message before it is read, at an end of this transfer size.
fn inner_fault(transfer: u32, inner: &[u8]) -> Option<BadReply>
    ensures { (q : ReqSetup) → q.transfer ≡ transfer → result ≡ inner_fault q inner.now }
{
    let kind = byte_at(inner, 0);
    let long = behind_type(inner).len();
    if kind == SPDM && long > transfer as usize {
        return Some(BadReply::TooLong);
    }
    if kind == APP_DATA && long > MAX_APP_DATA_LEN {
        return Some(BadReply::TooLong);
    }
    if kind != SPDM && kind != APP_DATA {
        return Some(BadReply::Malformed(0));
    }
    None
}

// What an inner message holds, at an end of this transfer size, in a session of hashes of this length.
pub fn read_inner(transfer: u32, hash_len: usize, inner: &[u8]) -> Result<Inner<'_>, BadReply>
    ensures { (q : ReqSetup) → q.transfer ≡ transfer
        → Reads result (contents_of q hash_len inner.now) }
{
    if let Some(fault) = inner_fault(transfer, inner) {
        return Err(fault);
    }
    let bytes = behind_type(inner);
    if byte_at(inner, 0) != SPDM {
        return Ok(Inner::Data(bytes));
    }
    match read_answer(bytes, hash_len, false) {
        Ok(message) => Ok(Inner::Message(message)),
        Err(fault) => Err(BadReply::Malformed(fault.at)),
    }
}
