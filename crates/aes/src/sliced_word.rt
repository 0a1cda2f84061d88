ghost use Rattle.std.specs.Prelude.{◌≡◌, ◌∷◌, []};
ghost use Rattle.aes.specs.Cipher.{sub_bytes};

use crate::circuit::substituted;
use crate::packing::{packed, unpacked};

/// The substitutions of four bytes (FIPS 197, section 5.1.1), with no table.
pub fn substituted_word(a: u8, b: u8, c: u8, d: u8) -> [u8; 4]
    ensures { result ≡ sub_bytes (a ∷ b ∷ c ∷ d ∷ []) }
{
    let word = a as u128 * (1 << 24) + b as u128 * (1 << 16) + c as u128 * (1 << 8) + d as u128;
    let blocks = unpacked(&substituted(&packed(&[word, 0, 0, 0])));
    ((blocks[0] % (1 << 32)) as u32).to_be_bytes()
}
