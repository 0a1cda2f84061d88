ghost use Rattle.std.specs.Prelude.{◌≡◌, ◌≤◌, false, length};
ghost use Rattle.measurements.specs.Records.{is_missing};
ghost use Rattle.responder_machine.specs.Answer.{Free, measurements_answer};
ghost use Rattle.responder_machine.specs.Setup.{RspSetup, inventory_of};
ghost use Rattle.spdm_grammar.specs.Responses.{canonical_response};
ghost use Rattle.spdm_grammar.specs.declared.names.TheConstants.{MAX_MESSAGE_SIZE, MAX_OPAQUE_LEN};

use measurements::Inventory;
use spdm_basis::Frame;
use spdm_codec::write_response;
use spdm_grammar::names::MEASUREMENTS_FIELDS_LEN;
use spdm_grammar::{Measured, Response};

/// Overwrites `out` with the MEASUREMENTS that answer an operation, with this nonce of 32 bytes and these opaque data
/// of at most 1,024, and returns their length. Where that is above 4,096 they are not whole in `out`.
pub fn write_measurements(
    inventory: &Inventory,
    op: u8,
    nonce: &[u8],
    opaque: &[u8],
    out: &mut Frame,
) -> u32
    requires nonce { length nonce.now ≡ 32 }
    requires opaque { length opaque.now ≤ MAX_OPAQUE_LEN }
    requires found { is_missing op inventory.now ≡ false }
    ensures size { (r : RspSetup) (f : Free) → inventory_of r ≡ inventory.now
        → f.nonce ≡ nonce.now → f.measured_opaque ≡ opaque.now
        → result ≡ length (canonical_response (measurements_answer r f op)) }
    ensures value { (r : RspSetup) (f : Free) → inventory_of r ≡ inventory.now
        → f.nonce ≡ nonce.now → f.measured_opaque ≡ opaque.now → result ≤ MAX_MESSAGE_SIZE
        → out.new ≡ canonical_response (measurements_answer r f op) }
{
    let mut record = Frame::new();
    let blocks = inventory.record(op, &mut record).unwrap_or(0);
    let measured = Measured {
        total: if op == 0 { inventory.total() } else { 0 },
        blocks,
        block_bytes: record.as_slice(),
        nonce,
        opaque,
    };
    let _ = write_response(&Response::Measurements(measured), 0, false, out);
    (MEASUREMENTS_FIELDS_LEN as usize + record.as_slice().len() + opaque.len()) as u32
}
