ghost use Rattle.std.specs.Prelude.{◌≡◌, slice_index};
ghost use Rattle.negotiate.specs.Tables.{front_value, behind_front, tables_in, value_of};

use byteorder::{ByteOrder, LittleEndian};

/// The byte at this place, and zero after the end.
pub fn byte_at(bytes: &[u8], at: usize) -> u8
    ensures { result ≡ slice_index bytes.now at }
{
    bytes.get(at).copied().unwrap_or(0)
}

/// What follows the algorithm structure at the front.
pub fn behind_front(bytes: &[u8]) -> &[u8]
    ensures { result.now ≡ behind_front bytes.now }
{
    let len = 4 + 4 * usize::from(byte_at(bytes, 1) % 16);
    bytes.get(len..).unwrap_or(&[])
}

// The fixed bits of the algorithm structure at the front.
fn front_value(bytes: &[u8]) -> u16
    ensures { result ≡ front_value bytes.now }
{
    LittleEndian::read_u16(&[byte_at(bytes, 2), byte_at(bytes, 3)])
}

/// The fixed bits of the first of `count` algorithm structures that has the type `kind` (a constant of
/// `spdm_grammar::names::table_type`), and none where no structure has it.
pub fn value_of(kind: u8, count: u8, tables: &[u8]) -> u16
    ensures { result ≡ value_of kind (tables_in count tables.now) }
{
    let mut rest = tables;
    for i in 0..count {
        if byte_at(rest, 0) == kind {
            return front_value(rest);
        }
        rest = behind_front(rest);
    }
    0
}
