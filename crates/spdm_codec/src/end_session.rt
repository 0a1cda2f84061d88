ghost use Rattle.spdm_grammar.specs.Reading.{read};
ghost use Rattle.spdm_grammar.specs.Requests.{end_session_layout};
ghost use Rattle.spdm_grammar.specs.Responses.{end_session_ack_layout};
ghost use Rattle.spdm_grammar.specs.Message.{request_message, response_message};
ghost use Rattle.spdm_codec.specs.Answer.{Gives};

use crate::cursor::Cursor;
use spdm_grammar::{Malformed, Request, Response};

/// END_SESSION after its code.
#[tactic(auto, unfolding(spdm_grammar::specs::Requests::end_session_layout))]
pub fn read_end_session<'a>(cursor: &mut Cursor<'a>) -> Result<Request<'a>, Malformed>
    ensures { Gives request_message result (read end_session_layout cursor.old) }
{
    cursor.field(2)?;
    cursor.end()?;
    Ok(Request::EndSession)
}

/// END_SESSION_ACK after its code.
#[tactic(auto, unfolding(spdm_grammar::specs::Responses::end_session_ack_layout))]
pub fn read_end_session_ack<'a>(cursor: &mut Cursor<'a>) -> Result<Response<'a>, Malformed>
    ensures { Gives response_message result (read end_session_ack_layout cursor.old) }
{
    cursor.field(2)?;
    cursor.end()?;
    Ok(Response::EndSessionAck)
}
