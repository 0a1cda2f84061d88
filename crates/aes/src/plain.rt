ghost use Rattle.std.specs.Prelude.{◌≡◌, ◌⊎◌, length};
ghost use Rattle.aes.specs.Cipher.{cipher};

use crate::expansion::expand_key;
use crate::state::{add_round_key, mix_columns, shift_rows, substitute_all};

/// The block that `block` is enciphered to under a key of 16 or 32 bytes, step by step as in FIPS 197,
/// section 5.1. `Aes` has the same by tables.
#[tactic(auto, unfolding(crate::specs::Cipher::rounds, crate::specs::Cipher::cipher))]
pub fn encrypt_step_by_step(key: &[u8], block: &[u8; 16]) -> [u8; 16]
    requires { (length key.now ≡ 16) ⊎ (length key.now ≡ 32) }
    ensures { result ≡ cipher key.now block.now }
{
    let expanded = expand_key(key);
    let keys = expanded.as_slice();
    let rounds = key.len() / 4 + 6;
    let last = rounds - 1;
    let mut state = add_round_key(block, &keys[0..16]);
    for n in 0..last {
        let mixed = mix_columns(&shift_rows(&substitute_all(&state)));
        state = add_round_key(&mixed, &keys[16 * (n + 1)..16 * (n + 1) + 16]);
    }
    let shifted = shift_rows(&substitute_all(&state));
    add_round_key(&shifted, &keys[16 * rounds..16 * rounds + 16])
}
