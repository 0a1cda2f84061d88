ghost use Rattle.std.specs.Prelude.{◌≡◌, ◌≤◌, ◌↔◌, IsTrue, length};
ghost use Rattle.spdm_grammar.specs.Fields.{IsSoundChunk};
ghost use Rattle.spdm_grammar.specs.Message.{chunk_message};
ghost use Rattle.spdm_grammar.specs.Message.ResponseMessage.{ChunkResponse};
ghost use Rattle.spdm_grammar.specs.Responses.{canonical_response};
ghost use Rattle.spdm_grammar.specs.declared.names.TheConstants.{MAX_MESSAGE_SIZE};
ghost use Rattle.spdm_machine.specs.Bodies.{clear_body};

use crate::clear_fetch::shown::Shown;
use crate::session_fetch::in_session::{MOST_BYTES, bytes_in, size_with, zeros};
use check_late_laws::{LargeAnswer, Marks};
use chunking::nth_chunk;
use responder_core::KeptReply;
use session_keys::{behind_type, byte_at};
use spdm_basis::Frame;
use spdm_codec::write_response;
use spdm_grammar::names::message_type::SPDM;
use spdm_grammar::{ChunkView, Response};

/// A large response that is fetched in the clear: its request, with its tag, and the LargeResponse that it got; the
/// lengths that are sent in chunks, and the requester's transfer size; what came of it; the newest request in the
/// clear, with its reply; and, where the fetch began late, by a repeat of the request, the marks of the sessions that
/// were touched between the two: then the tag is another than that of the request. Never allocates (read, not proved).
#[derive(Drop)]
pub struct Held {
    pub(crate) tag: u8,
    pub(crate) request: Frame,
    pub(crate) reply: Frame,
    pub(crate) least: usize,
    pub(crate) most: usize,
    pub(crate) transfer: u32,
    pub(crate) answer: LargeAnswer,
    pub(crate) newest: KeptReply,
    pub(crate) late: Option<Marks>,
}

// Whether a body is this message in the clear.
fn is_clear(body: &[u8], message: &[u8]) -> bool
    ensures { IsTrue result ↔ (clear_body message.now ≡ body.now) }
{
    match body.split_first() {
        Some((&kind, rest)) => kind == SPDM && rest == message,
        None => false,
    }
}

// Whether a body is CHUNK_RESPONSE in the clear with this chunk.
fn is_response(body: &[u8], chunk: ChunkView<'_>) -> bool
    ensures { IsSoundChunk (chunk_message chunk.entry)
        → length (canonical_response (ChunkResponse (chunk_message chunk.entry))) ≤ MAX_MESSAGE_SIZE
        → (IsTrue result ↔ (clear_body (canonical_response (ChunkResponse (chunk_message chunk.entry)))
        ≡ body.now)) }
{
    let mut room = Frame::new();
    if !chunk.is_sound()
        || write_response(&Response::ChunkResponse(chunk), 0, false, &mut room).is_err()
    {
        return false;
    }
    is_clear(body, room.as_slice())
}

impl Held {
    ghost use Rattle.std.specs.Prelude.{◌≡◌, ◌≤◌, ℕ, List, MatchOption, Some, false, drop, length};
    ghost use Rattle.check_late_laws.specs.Fetching.{Fetching, answer_by};
    ghost use Rattle.check_late_laws.specs.FetchingShown.{ShowsChunk};
    ghost use Rattle.check_late_laws.specs.LargeAnswers.{StandsFor};
    ghost use Rattle.spdm_grammar.specs.declared.names.TheConstants.{MAX_MESSAGE_SIZE};
    ghost use Rattle.check_fetched_ends.specs.Held.{AreHeldFitting, CanBeCut, IsShownChunk, IsShownHeld, filled_with, repeats_held};
    ghost use Rattle.check_fetched_ends.specs.InSession.{filled};

    // The bytes so far, those of the CHUNK_RESPONSE that comes next, and zeros up to the announced length; `None` where
    // that is no length that is sent in chunks, and where they are longer.
    pub(crate) fn filled(&self, message: &[u8]) -> Option<Frame>
        ensures { MatchOption result (AreHeldFitting self.now message.now → ⊥)
            (λ whole. AreHeldFitting self.now message.now × (whole ≡ filled self.now.answer.number
            self.now.answer.size self.now.answer.bytes message.now)) }
    {
        let number = self.answer.number();
        let size = size_with(number, self.answer.size(), message);
        if size < self.least || size > self.most || size > MOST_BYTES {
            return None;
        }
        let chunk = bytes_in(number, message);
        let bytes = self.answer.bytes();
        if bytes.len() > size || chunk.len() > size - bytes.len() {
            return None;
        }
        let mut whole = Frame::new();
        let _ = whole.extend(bytes);
        let _ = whole.extend(chunk);
        let _ = whole.extend(zeros(size - whole.as_slice().len()));
        Some(whole)
    }

    // What an answer to CHUNK_GET is that is no repeat.
    fn shows_chunk(&self, body: &[u8], answer: &[u8]) -> Shown
        ensures { (AreHeldFitting self.now (drop 1 answer.now) → CanBeCut self.now (filled_with self.now answer.now))
            → IsShownChunk self.now body.now answer.now result }
    {
        let Some(whole) = self.filled(behind_type(answer)) else {
            return Shown::Other;
        };
        let handle = byte_at(body, 4);
        let Some(chunk) = nth_chunk(
            whole.as_slice(),
            self.transfer,
            handle,
            self.answer.number(),
        ) else {
            return Shown::Other;
        };
        let last = chunk.last;
        if !is_response(answer, chunk) {
            return Shown::Other;
        }
        if last {
            return Shown::Last;
        }
        Shown::Between
    }

    // The next chunk came, in this answer to CHUNK_GET under a tag.
    pub(crate) fn takes(&mut self, tag: u8, body: &[u8], answer: &[u8])
        ensures same { self.new ≡ record self.old { newest = self.new.newest; answer = self.new.answer } }
        ensures newest { length (drop 1 body.now) ≤ MAX_MESSAGE_SIZE
            → length (drop 1 answer.now) ≤ MAX_MESSAGE_SIZE
            → self.new.newest ≡ Some (record { tag = tag; message = drop 1 body.now; reply = drop 1 answer.now }) }
        ensures came { (f next : Fetching) (sent : List ℕ) (shown : ShowsChunk f next sent)
            → answer_by shown.entry ≡ drop 1 answer.now → StandsFor self.old.answer f
            → StandsFor self.new.answer next }
    {
        self.answer.take(behind_type(answer));
        self.newest
            .keep(tag, behind_type(body), behind_type(answer));
    }

    // What an answer is, to a request under a tag that is not GET_VERSION.
    pub(crate) fn shows(&self, tag: u8, body: &[u8], answer: &[u8]) -> Shown
        ensures { (repeats_held self.now tag body.now ≡ false → AreHeldFitting self.now (drop 1 answer.now)
            → CanBeCut self.now (filled_with self.now answer.now))
            → IsShownHeld self.now tag body.now answer.now result }
    {
        if !self.newest.is_repeat(tag, behind_type(body)) {
            return self.shows_chunk(body, answer);
        }
        if is_clear(answer, self.newest.reply()) {
            return Shown::Same;
        }
        Shown::Other
    }
}
