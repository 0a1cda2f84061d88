//! What an answer brings, by what it shows. Here it is decided that its verify data alone are wrong (`bad-verify`):
//! `judged_by`, with `is_apart` of `apart.rt`.
ghost use Rattle.std.specs.Prelude.{◌≡◌};
ghost use Rattle.check_responder.specs.JudgedResponder.{shows_large};
ghost use Rattle.check_responder.specs.ClearAnswers.{given_by, is_same, is_whole_given, judged_by, tells_get};
ghost use Rattle.check_laws.specs.DropsShown.{response_of};

use crate::answer_length::is_too_long;
use crate::apart::{carries_exchange, is_apart};
use crate::choosing::are_allowed;
use crate::{Given, Judged};
use responder_core::{Connection, FreeValues, Setup};
use responder_session::Work;
use session_keys::{byte_at, same_bytes};
use spdm_basis::{Frame, OutOfMemory, RecordFrame};
use spdm_grammar::Heard;
use spdm_grammar::names::CHUNK_SEND_ACK_FIELDS_LEN;
use spdm_grammar::names::error_number::LARGE_RESPONSE;
use spdm_grammar::names::request_code::CHUNK_GET;
use spdm_grammar::names::response_code::{CHUNK_SEND_ACK, ERROR};
use std::alloc::Global;

/// What is kept of the responder towards one requester: its connection, and room to answer in. Allocates only when
/// constructed (read, not proved).
#[derive(Drop)]
pub struct JudgedResponder {
    /// The responder towards the requester.
    pub connection: Connection,
    pub(crate) message: Frame,
    pub(crate) record: RecordFrame,
    pub(crate) work: Work,
}

/// The response that stands in an acknowledgement; any other answer is the response itself.
pub(crate) fn response_of(reply: &[u8]) -> &[u8]
    ensures { result.now ≡ response_of reply.now }
{
    if byte_at(reply, 1) != CHUNK_SEND_ACK {
        return reply;
    }
    if reply.len() < CHUNK_SEND_ACK_FIELDS_LEN {
        return &[];
    }
    &reply[CHUNK_SEND_ACK_FIELDS_LEN..]
}

/// Whether a response is LargeResponse.
pub(crate) fn shows_large(response: &[u8]) -> bool
    ensures { result ≡ shows_large response.now }
{
    byte_at(response, 1) == ERROR && byte_at(response, 2) == LARGE_RESPONSE
}

// Whether a repeat is told.
fn is_same(heard: Heard) -> bool
    ensures { result ≡ is_same heard }
{
    match heard {
        Heard::Same => true,
        _ => false,
    }
}

// Whether CHUNK_GET is told.
fn tells_get(heard: Heard) -> bool
    ensures { result ≡ tells_get heard }
{
    match heard {
        Heard::Answered(code) => code == CHUNK_GET,
        _ => false,
    }
}

// What an answer brings, by what is reported of it, by the reply, and by whether a large response is pending after it.
fn given_by(heard: Heard, reply: &[u8], pending: bool) -> Given
    ensures { result ≡ given_by heard reply.now pending }
{
    if is_same(heard) {
        return Given::Whole;
    }
    if shows_large(response_of(reply)) {
        return Given::Large;
    }
    if tells_get(heard) && !pending {
        return Given::Last;
    }
    Given::Whole
}

// Whether an answer goes whole.
fn is_whole(given: Given) -> bool
    ensures { result ≡ is_whole_given given }
{
    match given {
        Given::Whole => true,
        Given::Large | Given::Last => false,
    }
}

/// What is said of a reply, where this answer was given: that is told of it, and whether a large response is pending
/// after it. Verify data have `size` bytes. A reply is `Apart` where it is wrong in its verify data only.
pub(crate) fn judged_by(
    heard: Heard,
    given: &[u8],
    reply: &[u8],
    pending: bool,
    size: usize,
) -> Judged
    ensures { result ≡ judged_by heard given.now reply.now pending size }
{
    if same_bytes(given, reply) {
        return Judged::Given(given_by(heard, reply, pending));
    }
    if !is_apart(size, given, reply) {
        return Judged::Refused;
    }
    if !carries_exchange(given) {
        return Judged::Refused;
    }
    if is_whole(given_by(heard, given, pending)) {
        return Judged::Apart;
    }
    Judged::Refused
}

impl JudgedResponder {
    ghost use Rattle.std.specs.Prelude.{◌≡◌, ◌<◌, ◌-◌, ◌^◌, [], true, IfOk, is_some};
    ghost use Rattle.responder_core.specs.Free.{IsFree};
    ghost use Rattle.responder_core.specs.Setup.{IsSetUp};
    ghost use Rattle.responder_machine.specs.Answer.{Free};
    ghost use Rattle.responder_machine.specs.BoundLaws.{messages_of};
    ghost use Rattle.responder_machine.specs.History.{History};
    ghost use Rattle.responder_machine.specs.Responder.{after, on_clear};
    ghost use Rattle.responder_machine.specs.Setup.{RspSetup};
    ghost use Rattle.capture_machine.specs.Rounds.{no_draw};
    ghost use Rattle.check_responder.specs.JudgedResponder.{AreBounded, IsAnswerer};
    ghost use Rattle.check_responder.specs.ClearAnswers.{IsJudgedAt, IsLongWith, given_in};

    /// The initial state, before any message.
    pub fn new(alloc: Global, setup: &Setup<'_>) -> Result<JudgedResponder, OutOfMemory>
        ensures { (r : RspSetup) → IsSetUp setup.now r
            → IfOk result (λ responder. IsAnswerer responder r []) }
    {
        let connection = Connection::new(alloc, setup)?;
        Ok(JudgedResponder {
            connection,
            message: Frame::new(),
            record: RecordFrame::new(),
            work: Work::new(),
        })
    }

    /// Judges an answer to a clear message at these values. The whole answer to the message passes 4,096 bytes where
    /// that to `asked` does. Requires fewer than 2^64 - 1 received messages.
    pub fn answers_at(
        &mut self,
        setup: &Setup<'_>,
        tag: u8,
        message: &[u8],
        asked: &[u8],
        values: &FreeValues<'_>,
        reply: &[u8],
    ) -> Judged
        ensures told { (r : RspSetup) (h : History) (f : Free) → IsSetUp setup.now r
            → IsAnswerer self.old r h → messages_of h < 2 ^ 64 - 1 → IsFree values.now f
            → AreBounded f → IsLongWith r h message.now asked.now f
            → IsJudgedAt r h tag message.now f reply.now result }
        ensures stands { (r : RspSetup) (h : History) (f : Free) → IsSetUp setup.now r
            → IsAnswerer self.old r h → messages_of h < 2 ^ 64 - 1 → IsFree values.now f
            → AreBounded f → is_some (given_in result) ≡ true
            → IsAnswerer self.new r (after h (on_clear r h tag message.now f no_draw)) }
    {
        let hash = self.connection.choice().hash;
        if !are_allowed(&self.connection, hash, values) {
            return Judged::Refused;
        }
        if is_too_long(setup, hash, asked, values) {
            return Judged::Refused;
        }
        let heard = self
            .connection
            .on_clear(setup, tag, message, values, &mut self.message);
        let pending = self.connection.is_pending();
        judged_by(heard, self.message.as_slice(), reply, pending, hash.size())
    }
}
