ghost use Rattle.std.specs.Prelude.{◌≡◌};
ghost use Rattle.negotiate.specs.Versions.{version_entries, first_of_1_2};

use byteorder::{ByteOrder, LittleEndian};
use spdm_grammar::names::spdm_version::V1_2;

/// The entry to use of the entries of VERSION, two bytes each with little-endian: the first one of version 1.2, whose
/// bits 15:8 are 0x12, and `None` exactly when there is none (DSP0274, "VERSION response message format").
pub fn choose_version(entries: &[u8]) -> Option<u16>
    ensures { result ≡ first_of_1_2 (version_entries entries.now) }
{
    let mut rest = entries;
    while let [low, high, others @ ..] = rest {
        let entry = LittleEndian::read_u16(&[*low, *high]);
        if entry / 256 == u16::from(V1_2) {
            return Some(entry);
        }
        rest = others;
    }
    None
}
