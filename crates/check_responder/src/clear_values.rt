ghost use Rattle.std.specs.Prelude.{◌≡◌, ◌≤◌, ◌+◌, ◌++◌, true, ℕ, List, Some, None, drop, length, slice_index};
ghost use Rattle.std.specs.Option.{option_map};
ghost use Rattle.chunking.specs.Collecting.{joined, joined_with, told_size, under_way};
ghost use Rattle.responder_core.specs.Connected.{StandsFor};
ghost use Rattle.responder_core.specs.Free.{IsFree};
ghost use Rattle.responder_core.specs.Setup.{IsSetUp};
ghost use Rattle.responder_machine.specs.Answer.{request_at};
ghost use Rattle.responder_machine.specs.Handling.{chunk_in};
ghost use Rattle.responder_machine.specs.History.{History, clear_turns};
ghost use Rattle.responder_machine.specs.LargeMessages.{chunks_of};
ghost use Rattle.responder_machine.specs.Place.{Place, clear_place, inside, place_terms};
ghost use Rattle.responder_machine.specs.Refusal.{bytes_round};
ghost use Rattle.responder_machine.specs.Setup.{RspSetup};
ghost use Rattle.spdm_grammar.specs.Message.{ChunkMessage, chunk_message, request_message};
ghost use Rattle.spdm_grammar.specs.Requests.{request_in};
ghost use Rattle.spdm_grammar.specs.declared.names.TheConstants.{MAX_MESSAGE_SIZE};
ghost use Rattle.spdm_grammar.specs.declared.names.response_code.TheConstants.{CHUNK_SEND_ACK};
ghost use Rattle.check_laws.specs.AnswersShown.{clear_values, least_values, values_in, values_in_reply};
ghost use Rattle.check_responder.specs.ShownBy.{AreReadClear, IsPlaceOf};

use crate::response_values::{AnswerPlace, values_in};
use crate::shown_values::{request_of, zeros};
use responder_core::{Connection, FreeValues, Setup};
use session_keys::byte_at;
use spdm_basis::Frame;
use spdm_grammar::names::CHUNK_SEND_ACK_FIELDS_LEN;
use spdm_grammar::names::response_code::CHUNK_SEND_ACK;
use spdm_grammar::{ChunkView, HashAlg, Request};

/// The least values that a responder may choose at a place where this hash was chosen.
pub(crate) fn least_values(connection: &Connection, hash: HashAlg) -> FreeValues<'static>
    ensures { (r : RspSetup) (h : History) (p : Place) → StandsFor connection.now r h
        → (place_terms p).choice.hash ≡ hash → IsFree result (least_values h p) }
{
    FreeValues {
        id: connection.free_id(),
        context: zeros(hash.size()),
        exchange_opaque: &[],
        nonce: [0; 32],
        measured_opaque: &[],
        handle: 0,
        reply: &[],
        pad: &[],
    }
}

/// What an answer is read by, with so many bytes round it.
pub(crate) fn at_round(hash: HashAlg, transfer: u32, round: u8) -> AnswerPlace
    ensures { (p : Place) → (place_terms p).choice.hash ≡ hash
        → (place_terms p).common.to_requester.transfer ≡ transfer → bytes_round p.at ≡ round
        → IsPlaceOf result p }
{
    AnswerPlace {
        hash,
        transfer,
        round,
    }
}

// The chunk that a request carries.
fn chunk_in(request: Request<'_>) -> Option<ChunkView<'_>>
    ensures { option_map chunk_message result ≡ chunk_in (Some (request_message request.entry)) }
{
    match request {
        Request::ChunkSend(chunk) => Some(chunk),
        _ => None,
    }
}

/// The chunk that a message carries, where a hash has so many bytes.
pub(crate) fn chunk_of(message: &[u8], hash_len: usize) -> Option<ChunkView<'_>>
    ensures { option_map chunk_message result ≡ chunk_in (request_in hash_len message.now) }
{
    match request_of(message, hash_len) {
        Some(request) => chunk_in(request),
        None => None,
    }
}

// Overwrites `whole` with bytes, and more after them; whether they have room there.
fn join(first: &[u8], more: &[u8], whole: &mut Frame) -> bool
    ensures fits { length first.now + length more.now ≤ MAX_MESSAGE_SIZE → result ≡ true }
    ensures value { result ≡ true → whole.new ≡ first.now ++ more.now }
{
    whole.clear();
    if whole.extend(first).is_err() {
        return false;
    }
    whole.extend(more).is_ok()
}

// The bytes of a large request that stand before a chunk, by those that came so far.
fn bytes_before<'a>(so_far: &'a [u8], chunk: &ChunkView<'_>) -> &'a [u8]
    ensures { (accepted : List ChunkMessage) → so_far.now ≡ joined accepted
        → joined_with accepted (chunk_message chunk.now) ≡ result.now ++ chunk.now.chunk.now }
{
    if chunk.number == 0 {
        return &[];
    }
    so_far
}

// The response that stands in an acknowledgement.
fn acknowledged(reply: &[u8]) -> &[u8]
    ensures { result.now ≡ drop 6 reply.now }
{
    if reply.len() < CHUNK_SEND_ACK_FIELDS_LEN {
        return &[];
    }
    &reply[CHUNK_SEND_ACK_FIELDS_LEN..]
}

// The values that an answer to a message shows which is no chunk.
fn plain_values<'a>(
    setup: &Setup<'_>,
    at: AnswerPlace,
    message: &[u8],
    least: FreeValues<'a>,
    reply: &'a [u8],
) -> Option<FreeValues<'a>>
    ensures { (r : RspSetup) (h : History) → IsSetUp setup.now r
        → IsPlaceOf at (clear_place h) → IsFree least.entry (least_values h (clear_place h))
        → chunk_in (request_at (clear_place h) message.now) ≡ None
        → AreReadClear r h message.now reply.now
        (values_in_reply r (clear_place h) message.now (least_values h (clear_place h)) reply.now None)
        result }
{
    values_in(setup, at, message, least, reply)
}

// The values that the answer to the last chunk of a large request shows.
fn whole_values<'a>(
    setup: &Setup<'_>,
    at: AnswerPlace,
    so_far: &[u8],
    chunk: &ChunkView<'_>,
    least: FreeValues<'a>,
    reply: &'a [u8],
) -> Option<FreeValues<'a>>
    ensures { (r : RspSetup) (h : History) (m : List ℕ) → IsSetUp setup.now r
        → IsPlaceOf at (inside (clear_place h)) → IsFree least.entry (least_values h (clear_place h))
        → so_far.now ≡ joined (under_way (chunks_of (clear_turns h)))
        → told_size (under_way (chunks_of (clear_turns h))) ≤ MAX_MESSAGE_SIZE
        → chunk_in (request_at (clear_place h) m) ≡ Some (chunk_message chunk.now)
        → chunk.now.last ≡ true → slice_index reply.now 1 ≡ CHUNK_SEND_ACK
        → AreReadClear r h m reply.now (values_in r (inside (clear_place h))
        (joined_with (under_way (chunks_of (clear_turns h))) (chunk_message chunk.now))
        (least_values h (clear_place h)) (drop 6 reply.now)) result }
{
    let mut whole = Frame::new();
    if !join(bytes_before(so_far, chunk), chunk.chunk, &mut whole) {
        return None;
    }
    values_in(setup, at, whole.as_slice(), least, acknowledged(reply))
}

// The values that the answer to a chunk of a large request shows.
fn chunk_values<'a>(
    setup: &Setup<'_>,
    at: AnswerPlace,
    so_far: &[u8],
    chunk: &ChunkView<'_>,
    least: FreeValues<'a>,
    reply: &'a [u8],
) -> Option<FreeValues<'a>>
    ensures { (r : RspSetup) (h : History) (m : List ℕ) → IsSetUp setup.now r
        → IsPlaceOf at (inside (clear_place h)) → IsFree least.entry (least_values h (clear_place h))
        → so_far.now ≡ joined (under_way (chunks_of (clear_turns h)))
        → told_size (under_way (chunks_of (clear_turns h))) ≤ MAX_MESSAGE_SIZE
        → chunk_in (request_at (clear_place h) m) ≡ Some (chunk_message chunk.now)
        → AreReadClear r h m reply.now (values_in_reply r (clear_place h) m
        (least_values h (clear_place h)) reply.now (Some (chunk_message chunk.now))) result }
{
    if !chunk.last {
        return Some(least);
    }
    if byte_at(reply, 1) != CHUNK_SEND_ACK {
        return Some(least);
    }
    whole_values(setup, at, so_far, chunk, least, reply)
}

// The values that an answer to a clear message shows which is no repeat, where the requester has this transfer size and
// these bytes of a large request came so far. `None` where there is no such answer at them.
fn read_clear<'a>(
    setup: &Setup<'_>,
    connection: &Connection,
    transfer: u32,
    so_far: &[u8],
    message: &[u8],
    reply: &'a [u8],
) -> Option<FreeValues<'a>>
    ensures { (r : RspSetup) (h : History) → IsSetUp setup.now r → StandsFor connection.now r h
        → (place_terms (clear_place h)).common.to_requester.transfer ≡ transfer
        → so_far.now ≡ joined (under_way (chunks_of (clear_turns h)))
        → told_size (under_way (chunks_of (clear_turns h))) ≤ MAX_MESSAGE_SIZE
        → AreReadClear r h message.now reply.now (clear_values r h message.now reply.now) result }
{
    let hash = connection.choice().hash;
    let least = least_values(connection, hash);
    match chunk_of(message, hash.size()) {
        Some(chunk) => {
            let at = at_round(hash, transfer, CHUNK_SEND_ACK_FIELDS_LEN as u8);
            chunk_values(setup, at, so_far, &chunk, least, reply)
        }
        None => plain_values(setup, at_round(hash, transfer, 0), message, least, reply),
    }
}

/// The values that an answer to a clear message shows which is no repeat. `None` where there is no such answer at them.
pub(crate) fn clear_values<'a>(
    setup: &Setup<'_>,
    connection: &Connection,
    message: &[u8],
    reply: &'a [u8],
) -> Option<FreeValues<'a>>
    ensures { (r : RspSetup) (h : History) → IsSetUp setup.now r → StandsFor connection.now r h
        → AreReadClear r h message.now reply.now (clear_values r h message.now reply.now) result }
{
    connection.told();
    let transfer = connection.common().to_requester.transfer;
    let so_far = connection.under_way();
    read_clear(setup, connection, transfer, so_far, message, reply)
}
