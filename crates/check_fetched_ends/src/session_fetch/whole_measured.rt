ghost use Rattle.std.specs.Prelude.{◌≡◌, ◌≤◌, length, true, false};
ghost use Rattle.responder_core.specs.Setup.{IsSetUp};
ghost use Rattle.check_fetched_ends.specs.InSession.{IsMeasuredBy};
ghost use Rattle.measurements.specs.Records.{is_missing};
ghost use Rattle.responder_machine.specs.Setup.{RspSetup, inventory_of};
ghost use Rattle.spdm_grammar.specs.declared.names.TheConstants.{MAX_MESSAGE_SIZE};

use responder_core::Setup;
use responder_rules::write_measurements;
use session_keys::same_bytes;
use spdm_basis::Frame;
use spdm_grammar::names::{MAX_MESSAGE_SIZE, MAX_OPAQUE_LEN};

// The bytes of MEASUREMENTS before the blocks.
const BEFORE_BLOCKS: usize = 8;

// The bytes of the nonce, and of the length of the opaque data after it.
const NONCE_BYTES: usize = 32;

const OPAQUE_SIZE_BYTES: usize = 2;

/// Whether these bytes are MEASUREMENTS for an operation: the nonce and the opaque data are read off them, and the rest
/// is compared.
pub(crate) fn is_measured(setup: &Setup<'_>, op: u8, whole: &[u8]) -> bool
    ensures yes { (r : RspSetup) → IsSetUp setup.now r → result ≡ true → IsMeasuredBy r op whole.now }
    ensures none { (r : RspSetup) → IsSetUp setup.now r → is_missing op (inventory_of r) ≡ false
        → length whole.now ≤ MAX_MESSAGE_SIZE → result ≡ false → IsMeasuredBy r op whole.now → ⊥ }
{
    let mut blocks = Frame::new();
    if setup.inventory.record(op, &mut blocks).is_err() {
        return false;
    }
    let nonce_at = BEFORE_BLOCKS + blocks.as_slice().len();
    if whole.len() < nonce_at + NONCE_BYTES + OPAQUE_SIZE_BYTES {
        return false;
    }
    let (nonce, behind) = whole.split_at(nonce_at).1.split_at(NONCE_BYTES);
    let opaque = behind.split_at(OPAQUE_SIZE_BYTES).1;
    if opaque.len() > MAX_OPAQUE_LEN {
        return false;
    }
    let mut right = Frame::new();
    let size = write_measurements(setup.inventory, op, nonce, opaque, &mut right);
    size <= MAX_MESSAGE_SIZE && same_bytes(right.as_slice(), whole)
}
