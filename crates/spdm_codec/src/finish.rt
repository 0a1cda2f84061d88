ghost use Rattle.spdm_grammar.specs.Reading.{read};
ghost use Rattle.spdm_grammar.specs.Requests.{psk_finish_layout};
ghost use Rattle.spdm_grammar.specs.Responses.{psk_finish_rsp_layout};
ghost use Rattle.spdm_grammar.specs.Message.{request_message, response_message};
ghost use Rattle.spdm_codec.specs.Answer.{Gives};

use crate::cursor::Cursor;
use spdm_grammar::{Malformed, Request, Response};

/// PSK_FINISH after its code.
#[tactic(auto, unfolding(spdm_grammar::specs::Requests::psk_finish_layout))]
pub fn read_psk_finish<'a>(
    cursor: &mut Cursor<'a>,
    hash_len: usize,
) -> Result<Request<'a>, Malformed>
    ensures { Gives request_message result (read (psk_finish_layout hash_len) cursor.old) }
{
    cursor.field(2)?;
    let verify = cursor.field(hash_len)?;
    cursor.end()?;
    Ok(Request::PskFinish { verify })
}

/// PSK_FINISH_RSP after its code.
#[tactic(auto, unfolding(spdm_grammar::specs::Responses::psk_finish_rsp_layout))]
pub fn read_psk_finish_rsp<'a>(cursor: &mut Cursor<'a>) -> Result<Response<'a>, Malformed>
    ensures { Gives response_message result (read psk_finish_rsp_layout cursor.old) }
{
    cursor.field(2)?;
    cursor.end()?;
    Ok(Response::PskFinishRsp)
}
