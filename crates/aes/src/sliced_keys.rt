ghost use Rattle.std.specs.Prelude.{◌≡◌, ◌<◌, ◌+◌, ◌⊎◌, ℕ, length};
ghost use Rattle.aes.specs.Cipher.{round_count};
ghost use Rattle.aes.specs.Words.{block_bytes};
ghost use Rattle.aes.specs.Slices.{block_at};
ghost use Rattle.aes.specs.SlicedKeys.{shifted_back, IsSlicedSchedule};

use crate::expansion::{Substitution, expanded_by};
use crate::packing::packed;
use crate::slices::Slices;
use arrayvec::ArrayVec;
use byteorder::{BigEndian, ByteOrder};

// A block whose rows are shifted `k` times against ShiftRows.
fn shifted_back(block: &[u8], k: usize) -> [u8; 16]
    requires long { length block.now ≡ 16 }
    requires times { k < 4 }
    ensures { result ≡ shifted_back k block.now }
{
    let mut out = [0u8; 16];
    for i in 0..16usize {
        out[i] = block[(i + 12 * k * (i % 4)) % 16];
    }
    out
}

// The number that a block of 16 bytes reads as, the highest first.
fn number_of(block: &[u8; 16]) -> u128
    ensures { block_bytes result ≡ block.now }
{
    BigEndian::read_u128(block)
}

// A round key by slices, for each of four blocks, for states whose rows were shifted `k` times.
fn sliced_key(key: &[u8], k: usize) -> Slices
    requires long { length key.now ≡ 16 }
    requires times { k < 4 }
    ensures { (b : ℕ) → b < 4 → block_at k result b ≡ key.now }
{
    let number = number_of(&shifted_back(key, k));
    packed(&[number, number, number, number])
}

/// The round keys of a key of 16 or 32 bytes (FIPS 197, section 5.2) by slices. No place in memory and no
/// branch depends on the key.
pub fn sliced_schedule(key: &[u8]) -> ArrayVec<Slices, 15>
    requires { (length key.now ≡ 16) ⊎ (length key.now ≡ 32) }
    ensures keys { IsSlicedSchedule result.items key.now }
    ensures count { length result.items ≡ round_count key.now + 1 }
{
    let bytes = expanded_by(Substitution::Circuit, key);
    let bytes = bytes.as_slice();
    let rounds = key.len() / 4 + 6;
    let mut keys = ArrayVec::new();
    for n in 0..rounds {
        keys.push(sliced_key(&bytes[16 * n..16 * n + 16], n % 4));
    }
    keys.push(sliced_key(&bytes[16 * rounds..16 * rounds + 16], 0));
    keys
}
