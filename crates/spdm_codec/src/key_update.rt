ghost use Rattle.spdm_grammar.specs.Reading.{read};
ghost use Rattle.spdm_grammar.specs.Requests.{key_update_layout};
ghost use Rattle.spdm_grammar.specs.Responses.{key_update_ack_layout};
ghost use Rattle.spdm_grammar.specs.Message.{request_message, response_message};
ghost use Rattle.spdm_codec.specs.Answer.{Gives};

use crate::cursor::{Cursor, not_allowed};
use spdm_grammar::{Malformed, Request, Response};

/// KEY_UPDATE after its code.
#[tactic(auto, unfolding(spdm_grammar::specs::Requests::key_update_layout))]
pub fn read_key_update<'a>(cursor: &mut Cursor<'a>) -> Result<Request<'a>, Malformed>
    ensures { Gives request_message result (read key_update_layout cursor.old) }
{
    let at = cursor.at();
    let op = cursor.byte()?;
    if op < 1 || op > 3 {
        return Err(not_allowed(at));
    }
    let tag = cursor.byte()?;
    cursor.end()?;
    Ok(Request::KeyUpdate { op, tag })
}

/// KEY_UPDATE_ACK after its code.
#[tactic(auto, unfolding(spdm_grammar::specs::Responses::key_update_ack_layout))]
pub fn read_key_update_ack<'a>(cursor: &mut Cursor<'a>) -> Result<Response<'a>, Malformed>
    ensures { Gives response_message result (read key_update_ack_layout cursor.old) }
{
    let at = cursor.at();
    let op = cursor.byte()?;
    if op < 1 || op > 3 {
        return Err(not_allowed(at));
    }
    let tag = cursor.byte()?;
    cursor.end()?;
    Ok(Response::KeyUpdateAck { op, tag })
}
