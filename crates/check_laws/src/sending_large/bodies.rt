ghost use Rattle.std.specs.Prelude.{◌≡◌, ◌↔◌, ◌≤◌, ◌+◌, ◌*◌, IsTrue, drop, length, slice_index};
ghost use Rattle.spdm_grammar.specs.Fields.{IsSoundChunk};
ghost use Rattle.spdm_grammar.specs.Message.{chunk_message};
ghost use Rattle.spdm_grammar.specs.Message.RequestMessage.{ChunkSend};
ghost use Rattle.spdm_grammar.specs.Requests.{canonical_request};
ghost use Rattle.spdm_grammar.specs.declared.names.TheConstants.{MAX_MESSAGE_SIZE};
ghost use Rattle.spdm_machine.specs.Bodies.{clear_body};
ghost use Rattle.check_laws.specs.Large.Pieces.{size_in};

use spdm_basis::Frame;
use spdm_codec::write_request;
use spdm_grammar::names::message_type::SPDM;
use spdm_grammar::{ChunkView, Request};

// A byte of a body, and 0 after its end.
fn byte_at(body: &[u8], at: usize) -> u8
    ensures { result ≡ slice_index body.now at }
{
    match body.get(at) {
        Some(&byte) => byte,
        None => 0,
    }
}

// The length announced by a first chunk, of at most 65,535 bytes.
pub(crate) fn told_size(body: &[u8]) -> usize
    ensures { result ≡ size_in body.now }
{
    byte_at(body, 13) as usize + byte_at(body, 14) as usize * 256
}

// The bytes of a body from a place on; none where it is shorter.
pub(crate) fn bytes_from(body: &[u8], at: usize) -> &[u8]
    ensures { result.now ≡ drop at body.now }
{
    match body.get(at..) {
        Some(bytes) => bytes,
        None => &[],
    }
}

// Whether a body is CHUNK_SEND in the clear with this chunk.
pub(crate) fn is_chunk(body: &[u8], chunk: ChunkView<'_>) -> bool
    ensures { IsSoundChunk (chunk_message chunk.entry) → length chunk.entry.chunk.now + 16 ≤ MAX_MESSAGE_SIZE
        → (IsTrue result ↔ (clear_body (canonical_request (ChunkSend (chunk_message chunk.entry)))
        ≡ body.now)) }
{
    let request = Request::ChunkSend(chunk);
    let mut room = Frame::new();
    if !request.is_sound(0) || write_request(&request, 0, &mut room).is_err() {
        return false;
    }
    match body.split_first() {
        Some((&kind, rest)) => kind == SPDM && rest == room.as_slice(),
        None => false,
    }
}
