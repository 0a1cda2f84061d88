ghost use Rattle.spdm_grammar.specs.Reading.{read};
ghost use Rattle.spdm_grammar.specs.Requests.{get_capabilities_layout};
ghost use Rattle.spdm_grammar.specs.Responses.{capabilities_layout};
ghost use Rattle.spdm_grammar.specs.Message.RequestMessage.{GetCapabilities};
ghost use Rattle.spdm_grammar.specs.Message.ResponseMessage.{Capabilities};
ghost use Rattle.spdm_codec.specs.Answer.{Gives};
ghost use Rattle.std.specs.Prelude.{◌≡◌, ◌<◌, ◌∷◌, length, OnOk, OnErr, ◌≤◌};
ghost use Rattle.spdm_grammar.specs.Fields.{caps_bytes};

use crate::cursor::Cursor;
use crate::put::{TooLong, put, put_four};
use spdm_basis::Frame;
use spdm_grammar::names::MAX_MESSAGE_SIZE;
use spdm_grammar::names::spdm_version::V1_2;
use spdm_grammar::{Caps, Malformed};

/// GET_CAPABILITIES or CAPABILITIES after its code.
#[tactic(auto, unfolding(spdm_grammar::specs::Requests::get_capabilities_layout, spdm_grammar::specs::Responses::capabilities_layout))]
pub fn read_caps(cursor: &mut Cursor<'_>) -> Result<Caps, Malformed>
    ensures request { Gives GetCapabilities result (read get_capabilities_layout cursor.old) }
    ensures response { Gives Capabilities result (read capabilities_layout cursor.old) }
{
    cursor.field(3)?;
    let ct = cursor.byte()?;
    cursor.field(2)?;
    let flags = cursor.four()?;
    let transfer = cursor.four()?;
    let max = cursor.four()?;
    cursor.end()?;
    Ok(Caps {
        ct,
        flags,
        transfer,
        max,
    })
}

/// Overwrites `out` with GET_CAPABILITIES or CAPABILITIES, by its code.
pub fn write_caps(code: u8, caps: &Caps, out: &mut Frame) -> Result<(), TooLong>
    ensures ok { OnOk result (out.new ≡ V1_2 ∷ code ∷ caps_bytes caps.now) }
    ensures fits { OnOk result (length out.new ≤ MAX_MESSAGE_SIZE) }
    ensures err { OnErr result (MAX_MESSAGE_SIZE < length (V1_2 ∷ code ∷ caps_bytes caps.now)) }
{
    out.clear();
    put(out, &[V1_2, code, 0, 0, 0, caps.ct, 0, 0])?;
    put_four(out, caps.flags)?;
    put_four(out, caps.transfer)?;
    put_four(out, caps.max)
}
