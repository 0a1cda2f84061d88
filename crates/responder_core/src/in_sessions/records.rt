ghost use Rattle.std.specs.Prelude.{◌≡◌, ◌≤◌, [], length};
ghost use Rattle.responder_machine.specs.Handling.{version_in};
ghost use Rattle.responder_machine.specs.Heard.{record_id};
ghost use Rattle.responder_machine.specs.Responder.{decrypt_error};
ghost use Rattle.spdm_machine.specs.Bodies.{clear_body};
ghost use Rattle.secured_record.specs.declared.TheConstants.{MAX_RECORD_SIZE};

use byteorder::{ByteOrder, LittleEndian};
use session_keys::byte_at;
use spdm_basis::{RecordFrame, SessionId};
use spdm_grammar::names::response_code::ERROR;
use spdm_grammar::names::spdm_version::{V1_0, V1_2};
use spdm_grammar::{ErrorCode, Phase};

/// Overwrites `out` with a record of at most 4,160 bytes.
pub fn replace_record(out: &mut RecordFrame, sealed: &[u8])
    ensures { length sealed.now ≤ MAX_RECORD_SIZE → out.new ≡ sealed.now }
{
    let _ = out.replace(sealed);
}

/// The session that a record names: ReqSessionID and RspSessionID, the first four bytes (DSP0277).
pub fn record_id(sealed: &[u8]) -> SessionId
    ensures { result ≡ record_id sealed.now }
{
    SessionId {
        req: LittleEndian::read_u16(&[byte_at(sealed, 0), byte_at(sealed, 1)]),
        rsp: LittleEndian::read_u16(&[byte_at(sealed, 2), byte_at(sealed, 3)]),
    }
}

// SPDMVersion of an ERROR.
fn version_in(phase: Phase) -> u8
    ensures { result ≡ version_in phase }
{
    match phase {
        Phase::Fresh => V1_0,
        Phase::Versioned | Phase::Capable | Phase::Negotiated => V1_2,
    }
}

/// Overwrites `out` with ERROR DecryptError in this phase.
pub fn write_decrypt_error(phase: Phase, out: &mut RecordFrame)
    ensures { clear_body out.new ≡ decrypt_error phase }
{
    let code = ErrorCode::DecryptError.number();
    replace_record(out, &[version_in(phase), ERROR, code, 0]);
}
