ghost use Rattle.spdm_grammar.specs.Reading.{read};
ghost use Rattle.spdm_grammar.specs.Requests.{heartbeat_layout};
ghost use Rattle.spdm_grammar.specs.Responses.{heartbeat_ack_layout};
ghost use Rattle.spdm_grammar.specs.Message.{request_message, response_message};
ghost use Rattle.spdm_codec.specs.Answer.{Gives};

use crate::cursor::Cursor;
use spdm_grammar::{Malformed, Request, Response};

/// HEARTBEAT after its code.
#[tactic(auto, unfolding(spdm_grammar::specs::Requests::heartbeat_layout))]
pub fn read_heartbeat<'a>(cursor: &mut Cursor<'a>) -> Result<Request<'a>, Malformed>
    ensures { Gives request_message result (read heartbeat_layout cursor.old) }
{
    cursor.field(2)?;
    cursor.end()?;
    Ok(Request::Heartbeat)
}

/// HEARTBEAT_ACK after its code.
#[tactic(auto, unfolding(spdm_grammar::specs::Responses::heartbeat_ack_layout))]
pub fn read_heartbeat_ack<'a>(cursor: &mut Cursor<'a>) -> Result<Response<'a>, Malformed>
    ensures { Gives response_message result (read heartbeat_ack_layout cursor.old) }
{
    cursor.field(2)?;
    cursor.end()?;
    Ok(Response::HeartbeatAck)
}
