ghost use Rattle.spdm_grammar.specs.Reading.{read};
ghost use Rattle.spdm_grammar.specs.Requests.{get_measurements_layout};
ghost use Rattle.spdm_grammar.specs.Responses.{measurements_layout};
ghost use Rattle.spdm_grammar.specs.Message.{request_message, response_message};
ghost use Rattle.spdm_codec.specs.Answer.{Gives};
ghost use Rattle.std.specs.Prelude.{◌≡◌, ◌<◌, ◌≤◌, ◌^◌, ◌∷◌, length, OnOk, OnErr};
ghost use Rattle.spdm_grammar.specs.Responses.{measured_bytes};
ghost use Rattle.spdm_grammar.specs.Message.{measured_message};
ghost use Rattle.spdm_grammar.specs.declared.names.TheConstants.{MAX_OPAQUE_LEN};

use crate::cursor::{Cursor, not_allowed};
use crate::put::{TooLong, put, put_three, put_two};
use spdm_basis::Frame;
use spdm_grammar::names::response_code::MEASUREMENTS;
use spdm_grammar::names::spdm_version::V1_2;
use spdm_grammar::names::{MAX_MESSAGE_SIZE, MAX_OPAQUE_LEN};
use spdm_grammar::{Malformed, Measured, Request, Response};

/// GET_MEASUREMENTS after its code.
#[tactic(auto, unfolding(spdm_grammar::specs::Requests::get_measurements_layout))]
pub fn read_get_measurements<'a>(cursor: &mut Cursor<'a>) -> Result<Request<'a>, Malformed>
    ensures { Gives request_message result (read get_measurements_layout cursor.old) }
{
    let at = cursor.at();
    let attributes = cursor.byte()?;
    if attributes % 2 != 0 {
        return Err(not_allowed(at));
    }
    let op = cursor.byte()?;
    cursor.end()?;
    Ok(Request::GetMeasurements { op })
}

/// MEASUREMENTS after its code.
#[tactic(auto, unfolding(spdm_grammar::specs::Responses::measurements_layout))]
pub fn read_measurements<'a>(cursor: &mut Cursor<'a>) -> Result<Response<'a>, Malformed>
    ensures { Gives response_message result (read measurements_layout cursor.old) }
{
    let total = cursor.byte()?;
    cursor.field(1)?;
    let blocks = cursor.byte()?;
    let record_len = cursor.three()?;
    let block_bytes = cursor.field(record_len as usize)?;
    let nonce = cursor.field(32)?;
    let at = cursor.at();
    let opaque_len = cursor.two()?;
    if usize::from(opaque_len) > MAX_OPAQUE_LEN {
        return Err(not_allowed(at));
    }
    let opaque = cursor.field(usize::from(opaque_len))?;
    cursor.end()?;
    Ok(Response::Measurements(Measured {
        total,
        blocks,
        block_bytes,
        nonce,
        opaque,
    }))
}

/// Overwrites `out` with MEASUREMENTS.
pub fn write_measurements(measured: &Measured<'_>, out: &mut Frame) -> Result<(), TooLong>
    requires block_bytes { length measured.now.block_bytes.now < 2 ^ 24 }
    requires opaque { length measured.now.opaque.now ≤ MAX_OPAQUE_LEN }
    ensures ok { OnOk result (out.new
        ≡ V1_2 ∷ MEASUREMENTS ∷ measured_bytes (measured_message measured.now)) }
    ensures fits { OnOk result (length out.new ≤ MAX_MESSAGE_SIZE) }
    ensures err { OnErr result (MAX_MESSAGE_SIZE < length (V1_2 ∷ MEASUREMENTS ∷ measured_bytes
        (measured_message measured.now))) }
{
    out.clear();
    put(
        out,
        &[V1_2, MEASUREMENTS, measured.total, 0, measured.blocks],
    )?;
    put_three(out, measured.block_bytes.len() as u32)?;
    put(out, measured.block_bytes)?;
    put(out, measured.nonce)?;
    put_two(out, measured.opaque.len() as u16)?;
    put(out, measured.opaque)
}
