ghost use Rattle.std.specs.Prelude.{◌≡◌};
ghost use Rattle.spdm_grammar.specs.Reading.{read};
ghost use Rattle.spdm_grammar.specs.Requests.{get_version_layout};
ghost use Rattle.spdm_grammar.specs.Responses.{version_layout};
ghost use Rattle.spdm_grammar.specs.Message.{request_message, response_message};
ghost use Rattle.spdm_codec.specs.Answer.{Gives};

use crate::cursor::Cursor;
use spdm_grammar::{Malformed, Request, Response};

/// GET_VERSION after its code.
#[tactic(auto, unfolding(spdm_grammar::specs::Requests::get_version_layout))]
pub fn read_get_version<'a>(cursor: &mut Cursor<'a>) -> Result<Request<'a>, Malformed>
    ensures { Gives request_message result (read get_version_layout cursor.old) }
{
    cursor.field(2)?;
    cursor.end()?;
    Ok(Request::GetVersion)
}

/// VERSION after its code.
#[tactic(auto, unfolding(spdm_grammar::specs::Responses::version_layout))]
pub fn read_version<'a>(cursor: &mut Cursor<'a>) -> Result<Response<'a>, Malformed>
    ensures { Gives response_message result (read version_layout cursor.old) }
{
    cursor.field(3)?;
    let count = cursor.byte()?;
    let entries = cursor.field(2 * usize::from(count))?;
    cursor.end()?;
    Ok(Response::Version { entries })
}
