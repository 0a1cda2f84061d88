ghost use Rattle.std.specs.Prelude.{◌≡◌, ◌≤◌, ◌∷◌, length};
ghost use Rattle.spdm_grammar.specs.Message.{chunk_message};
ghost use Rattle.spdm_grammar.specs.Message.ResponseMessage.{HeartbeatAck, EndSessionAck, PskFinishRsp, KeyUpdateAck, ChunkResponse};
ghost use Rattle.spdm_grammar.specs.Fields.{IsSoundChunk};
ghost use Rattle.spdm_grammar.specs.Responses.{canonical_response};
ghost use Rattle.spdm_grammar.specs.declared.names.TheConstants.{MAX_APP_DATA_LEN, MAX_MESSAGE_SIZE};

use spdm_basis::{Frame, RecordFrame};
use spdm_codec::write_response;
use spdm_grammar::{ChunkView, Response};

// Writes HEARTBEAT_ACK.
pub fn write_alive(out: &mut Frame)
    ensures { out.new ≡ canonical_response HeartbeatAck }
{
    let _ = write_response(&Response::HeartbeatAck, 0, false, out);
}

// Writes END_SESSION_ACK.
pub fn write_ended(out: &mut Frame)
    ensures { out.new ≡ canonical_response EndSessionAck }
{
    let _ = write_response(&Response::EndSessionAck, 0, false, out);
}

// Writes PSK_FINISH_RSP.
pub fn write_finish_answer(out: &mut Frame)
    ensures { out.new ≡ canonical_response PskFinishRsp }
{
    let _ = write_response(&Response::PskFinishRsp, 0, false, out);
}

// Writes KEY_UPDATE_ACK of an operation, where it is one.
pub fn write_update_answer(op: u8, tag: u8, out: &mut Frame)
    ensures { 1 ≤ op → op ≤ 3 → out.new ≡ canonical_response (KeyUpdateAck op tag) }
{
    if matches!(op, 1..=3) {
        let _ = write_response(&Response::KeyUpdateAck { op, tag }, 0, false, out);
    }
}

// Writes CHUNK_RESPONSE of at most 4,096 bytes, where the chunk has an encoding: each chunk of a large response has.
pub fn write_chunk(chunk: ChunkView<'_>, out: &mut Frame)
    ensures { IsSoundChunk (chunk_message chunk.entry)
        → length (canonical_response (ChunkResponse (chunk_message chunk.entry))) ≤ MAX_MESSAGE_SIZE
        → out.new ≡ canonical_response (ChunkResponse (chunk_message chunk.entry)) }
{
    if chunk.is_sound() {
        let _ = write_response(&Response::ChunkResponse(chunk), 0, false, out);
    }
}

// Overwrites `out` with the inner message of a type.
pub fn write_inner(kind: u8, message: &[u8], out: &mut RecordFrame)
    requires { length message.now ≤ MAX_MESSAGE_SIZE }
    ensures { out.new ≡ kind ∷ message.now }
{
    out.clear();
    let _ = out.extend(&[kind]);
    let _ = out.extend(message);
}

// Overwrites an answer with application data of at most 1,024 bytes.
pub fn write_data(bytes: &[u8], out: &mut Frame)
    requires { length bytes.now ≤ MAX_APP_DATA_LEN }
    ensures { out.new ≡ bytes.now }
{
    let _ = out.replace(bytes);
}
