ghost use Rattle.spdm_grammar.specs.Reading.{read};
ghost use Rattle.spdm_grammar.specs.Requests.{chunk_send_layout, chunk_get_layout};
ghost use Rattle.spdm_grammar.specs.Responses.{chunk_send_ack_layout, chunk_response_layout};
ghost use Rattle.spdm_grammar.specs.Message.{chunk_message, request_message, response_message};
ghost use Rattle.spdm_grammar.specs.Message.RequestMessage.{ChunkSend};
ghost use Rattle.spdm_grammar.specs.Message.ResponseMessage.{ChunkResponse};
ghost use Rattle.spdm_codec.specs.Answer.{Gives};
ghost use Rattle.std.specs.Prelude.{◌≡◌, ◌<◌, ◌^◌, ◌∷◌, length, OnOk, OnErr, ◌≤◌};
ghost use Rattle.spdm_grammar.specs.Fields.{chunk_bytes};

use crate::cursor::Cursor;
use crate::put::{TooLong, put, put_four, put_optional_four, put_two};
use spdm_basis::Frame;
use spdm_grammar::names::MAX_MESSAGE_SIZE;
use spdm_grammar::names::spdm_version::V1_2;
use spdm_grammar::{ChunkView, Malformed, Request, Response};

/// CHUNK_SEND or CHUNK_RESPONSE after its code.
#[tactic(auto, unfolding(spdm_grammar::specs::Requests::chunk_send_layout, spdm_grammar::specs::Responses::chunk_response_layout))]
pub fn read_chunk<'a>(cursor: &mut Cursor<'a>) -> Result<ChunkView<'a>, Malformed>
    ensures request { Gives (λ chunk. ChunkSend (chunk_message chunk)) result
        (read chunk_send_layout cursor.old) }
    ensures response { Gives (λ chunk. ChunkResponse (chunk_message chunk)) result
        (read chunk_response_layout cursor.old) }
{
    let attributes = cursor.byte()?;
    let handle = cursor.byte()?;
    let number = cursor.two()?;
    cursor.field(2)?;
    let size = cursor.four()?;
    let large = cursor.optional_four(number == 0)?;
    let chunk = cursor.field(size as usize)?;
    cursor.end()?;
    Ok(ChunkView {
        last: attributes % 2 == 1,
        handle,
        number,
        large,
        chunk,
    })
}

/// CHUNK_GET after its code.
#[tactic(auto, unfolding(spdm_grammar::specs::Requests::chunk_get_layout))]
pub fn read_chunk_get<'a>(cursor: &mut Cursor<'a>) -> Result<Request<'a>, Malformed>
    ensures { Gives request_message result (read chunk_get_layout cursor.old) }
{
    cursor.field(1)?;
    let handle = cursor.byte()?;
    let number = cursor.two()?;
    cursor.end()?;
    Ok(Request::ChunkGet { handle, number })
}

/// CHUNK_SEND_ACK after its code.
#[tactic(auto, unfolding(spdm_grammar::specs::Responses::chunk_send_ack_layout))]
pub fn read_chunk_send_ack<'a>(cursor: &mut Cursor<'a>) -> Result<Response<'a>, Malformed>
    ensures { Gives response_message result (read chunk_send_ack_layout cursor.old) }
{
    let attributes = cursor.byte()?;
    let handle = cursor.byte()?;
    let number = cursor.two()?;
    Ok(Response::ChunkSendAck {
        early: attributes % 2 == 1,
        handle,
        number,
        response: cursor.remaining(),
    })
}

/// Overwrites `out` with CHUNK_SEND or CHUNK_RESPONSE, by its code.
pub fn write_chunk(code: u8, chunk: &ChunkView<'_>, out: &mut Frame) -> Result<(), TooLong>
    requires { length chunk.now.chunk.now < 2 ^ 32 }
    ensures ok { OnOk result (out.new ≡ V1_2 ∷ code ∷ chunk_bytes (chunk_message chunk.now)) }
    ensures fits { OnOk result (length out.new ≤ MAX_MESSAGE_SIZE) }
    ensures err { OnErr result (MAX_MESSAGE_SIZE < length (V1_2 ∷ code ∷ chunk_bytes
        (chunk_message chunk.now))) }
{
    out.clear();
    put(out, &[V1_2, code, u8::from(chunk.last), chunk.handle])?;
    put_two(out, chunk.number)?;
    put(out, &[0, 0])?;
    put_four(out, chunk.chunk.len() as u32)?;
    put_optional_four(out, chunk.large)?;
    put(out, chunk.chunk)
}
