ghost use Rattle.std.specs.Prelude.{◌≡◌, ◌==◌, if◌then◌else◌};
ghost use Rattle.spdm_grammar.specs.Reading.{read};
ghost use Rattle.spdm_grammar.specs.Responses.{error_layout};
ghost use Rattle.spdm_grammar.specs.Message.{response_message};
ghost use Rattle.spdm_codec.specs.Answer.{Gives};

use crate::cursor::Cursor;
use spdm_grammar::names::error_number::{LARGE_RESPONSE, RESPONSE_TOO_LARGE};
use spdm_grammar::{ErrorCode, Malformed, Part, Response};

/// ERROR after its code.
#[tactic(auto, unfolding(spdm_grammar::specs::Responses::error_layout))]
pub fn read_error<'a>(cursor: &mut Cursor<'a>, version: u8) -> Result<Response<'a>, Malformed>
    ensures { Gives response_message result (read (error_layout version) cursor.old) }
{
    let code = cursor.byte()?;
    let detail = cursor.byte()?;
    if code == RESPONSE_TOO_LARGE {
        let extended = cursor.field(4)?;
        cursor.end()?;
        return Ok(Response::Error {
            version,
            code,
            detail,
            extended,
        });
    }
    if code == LARGE_RESPONSE {
        let extended = cursor.field(1)?;
        cursor.end()?;
        return Ok(Response::Error {
            version,
            code,
            detail,
            extended,
        });
    }
    let extended = cursor.up_to(32)?;
    Ok(Response::Error {
        version,
        code,
        detail,
        extended,
    })
}
