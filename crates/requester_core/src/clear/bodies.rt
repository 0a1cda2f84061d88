ghost use Rattle.std.specs.Prelude.{◌≡◌, ◌&&◌, Option, drop, is_none, length, nat_lt, slice_index};
ghost use Rattle.requester_machine.specs.Bodies as bodies;
ghost use Rattle.requester_machine.specs.History.{History, outstanding};
ghost use Rattle.requester_machine.specs.Message.{Sent};
ghost use Rattle.requester_machine.specs.Setup.{ReqSetup};
ghost use Rattle.requester_core.specs.Setup.{IsSetUp};
ghost use Rattle.requester_core.specs.ClearState.{Shows};
ghost use Rattle.requester_core.specs.Outstanding.{waiting_of};

use crate::{ClearState, Outstanding, Setup};
use spdm_codec::read_response;
use spdm_grammar::names::message_type::{SECURED, SPDM};
use spdm_grammar::{ReqIgnored, Response};

// The length of a SHA-256 hash: how an ERROR is encoded depends on no hash.
const ANY_HASH_LEN: usize = 32;

/// The code of the ERROR that a message encodes, if it encodes one.
pub fn error_in(message: &[u8]) -> Option<u8>
    ensures { result ≡ bodies.error_in message.now }
{
    match read_response(message, ANY_HASH_LEN, false) {
        Ok(Response::Error { code, .. }) => Some(code),
        _ => None,
    }
}

// The type of a body, and 0 where it has none.
fn type_of(body: &[u8]) -> u8
    ensures { result ≡ slice_index body.now 0 }
{
    match body {
        [kind, ..] => *kind,
        [] => 0,
    }
}

/// Whether a body is an SPDM message in the clear.
pub fn is_clear(body: &[u8]) -> bool
    ensures { result ≡ bodies.is_clear body.now }
{
    type_of(body) == SPDM
}

/// Whether a body is a record.
pub fn is_record(body: &[u8]) -> bool
    ensures { result ≡ bodies.is_record body.now }
{
    type_of(body) == SECURED
}

/// The message in a body, after its type.
pub fn message_in(body: &[u8]) -> &[u8]
    ensures { result.now ≡ drop 1 body.now }
{
    match body {
        [_, message @ ..] => message,
        [] => &[],
    }
}

impl Outstanding {
    // Whether nothing is outstanding.
    fn is_nothing(self) -> bool
        ensures { (sent : Option Sent) → waiting_of sent ≡ self → result ≡ is_none sent }
    {
        matches!(self, Outstanding::Nothing)
    }

    // Whether the outstanding message has this tag.
    fn has_tag(self, tag: u8) -> bool
        ensures { (sent : Option Sent) → waiting_of sent ≡ self → result ≡ bodies.has_tag sent tag }
    {
        match self {
            Outstanding::Nothing => false,
            Outstanding::InClear { tag: sent, .. } | Outstanding::InSession { tag: sent, .. } => {
                sent == tag
            }
        }
    }

    // Whether a body is out of place for the outstanding message.
    fn is_misplaced(self, body: &[u8]) -> bool
        ensures { (sent : Option Sent) → waiting_of sent ≡ self
            → result ≡ bodies.is_misplaced sent body.now }
    {
        match self {
            Outstanding::Nothing => false,
            Outstanding::InClear { .. } => is_record(body),
            Outstanding::InSession { .. } => {
                is_clear(body) && error_in(message_in(body)).is_none()
            }
        }
    }
}

// Whether a body is a message in the clear that is longer than the own transfer size.
fn is_too_long(transfer: u32, body: &[u8]) -> bool
    ensures { (q : ReqSetup) → q.transfer ≡ transfer → result
        ≡ (bodies.is_clear body.now && nat_lt q.transfer (length (drop 1 body.now))) }
{
    is_clear(body) && message_in(body).len() > transfer as usize
}

impl ClearState {
    /// The cause for which a whole body, with its tag owner bit and tag, is ignored before its message is read, if
    /// there is one.
    #[tactic(auto, unfolding(requester_machine::specs::Bodies::body_fault))]
    pub fn body_fault(
        &self,
        setup: &Setup<'_>,
        owner: bool,
        tag: u8,
        body: &[u8],
    ) -> Option<ReqIgnored>
        ensures { (q : ReqSetup) (h : History) → IsSetUp setup.now q → Shows self.now h
            → result ≡ bodies.body_fault q (outstanding h) owner tag body.now }
    {
        let waiting = self.outgoing.waiting();
        if owner {
            return Some(ReqIgnored::NotResponse);
        }
        if waiting.is_nothing() {
            return Some(ReqIgnored::NothingOutstanding);
        }
        if !waiting.has_tag(tag) {
            return Some(ReqIgnored::WrongTag);
        }
        if !(is_clear(body) || is_record(body)) {
            return Some(ReqIgnored::OtherType);
        }
        if waiting.is_misplaced(body) {
            return Some(ReqIgnored::WrongPlace);
        }
        if is_too_long(setup.transfer, body) {
            return Some(ReqIgnored::TooLong);
        }
        None
    }
}
