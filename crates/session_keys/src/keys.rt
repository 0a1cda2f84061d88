ghost use Rattle.std.specs.Prelude.{◌≡◌, ◌≤◌, ◌+◌, None, Some, OnOk, OnErr, MatchResult, length};
ghost use Rattle.key_schedule.specs.Purpose.{Purpose};
ghost use Rattle.spdm_basis.specs.SessionIdBytes.{session_id_bytes};
ghost use Rattle.spdm_grammar.specs.declared.messages.choice.Choice.{Choice};
ghost use Rattle.spdm_machine.specs.Keys.{sealed_of, record_fault, inner_message};
ghost use Rattle.session_keys.specs.Keys.{IsKeyOf};
ghost use Rattle.secured_record.specs.declared.TheConstants.{MAX_RECORD_SIZE, MIN_RECORD_SIZE};

use secured_record::{RecordFault, RecordKey};
use spdm_basis::{RecordFrame, SessionId};

/// Overwrites `out` with the record of an inner message and padding under the key of a purpose. Together they have at
/// most 4,134 bytes.
pub fn seal_record(
    key: &RecordKey,
    id: SessionId,
    number: u16,
    inner: &[u8],
    pad: &[u8],
    out: &mut RecordFrame,
)
    requires { length inner.now + length pad.now + MIN_RECORD_SIZE ≤ MAX_RECORD_SIZE }
    ensures value { (choice : Choice) (p : Purpose) → IsKeyOf key.now choice p
        → out.new ≡ sealed_of choice p number (session_id_bytes id.req id.rsp) inner.now pad.now }
    ensures size { length out.new ≡ length inner.now + length pad.now + MIN_RECORD_SIZE }
{
    let _ = key.seal(id, number, inner, pad, out);
}

/// Opens a record under the key of a purpose, and overwrites `out` with its inner message.
pub fn open_record(
    key: &RecordKey,
    id: SessionId,
    number: u16,
    sealed: &[u8],
    out: &mut RecordFrame,
) -> Result<(), RecordFault>
    ensures fault { (choice : Choice) (p : Purpose) → IsKeyOf key.now choice p → MatchResult result
        (λ _. record_fault choice p number (session_id_bytes id.req id.rsp) sealed.now ≡ None)
        (λ e. record_fault choice p number (session_id_bytes id.req id.rsp) sealed.now ≡ Some e) }
    ensures inner { (choice : Choice) (p : Purpose) → IsKeyOf key.now choice p
        → OnOk result (out.new ≡ inner_message choice p number sealed.now) }
    ensures fits { OnOk result (length sealed.now ≤ MAX_RECORD_SIZE) }
    ensures unchanged { OnErr result (out.new ≡ out.old) }
{
    key.open(id, number, sealed, out)
}
