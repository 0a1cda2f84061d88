use crate::packing::{packed, unpacked};
use crate::sliced_keys::sliced_schedule;
use crate::sliced_rounds::{first_round, fourth_round, last_round, second_round, third_round};
use crate::slices::Slices;
use arrayvec::ArrayVec;
use std::marker::Model;

/// AES under a key, with its round keys by slices: four blocks are enciphered at once, and no place in memory
/// and no branch depends on the key or the blocks. Contracts see the key.
#[derive(Drop)]
pub struct SlicedAes {
    key: ArrayVec<u8, 32>,
    keys: ArrayVec<Slices, 15>,
    rounds: usize,
}

impl Model for SlicedAes {
    ghost use Rattle.std.specs.Prelude.{◌≡◌, ◌+◌, ◌%◌, ◌⊎◌, ℕ, List, length};
    ghost use Rattle.aes.specs.Cipher.{round_count};
    ghost use Rattle.aes.specs.SlicedKeys.{IsSlicedSchedule};

    ghost Value = { List ℕ };

    ghost view = { λ a. a.key.items };

    ghost invariant = { λ a. IsSlicedSchedule a.keys.items a.key.items
        × (length a.keys.items ≡ a.rounds + 1)
        × (a.rounds ≡ round_count a.key.items)
        × (a.rounds % 4 ≡ 2)
        × ((length a.key.items ≡ 16) ⊎ (length a.key.items ≡ 32)) };
}

impl SlicedAes {
    ghost use Rattle.std.specs.Prelude.{◌≡◌, ◌<◌, ◌⊎◌, ℕ, length, replicate, slice_index};
    ghost use Rattle.aes.specs.Cipher.{cipher};
    ghost use Rattle.aes.specs.Words.{block_bytes};

    /// AES under a key of 16 or 32 bytes.
    pub fn new(key: &[u8]) -> SlicedAes
        requires { (length key.now ≡ 16) ⊎ (length key.now ≡ 32) }
        ensures { result ≡ key.now }
    {
        let mut copy = ArrayVec::new();
        let _ = copy.try_extend_from_slice(key);
        SlicedAes {
            key: copy,
            keys: sliced_schedule(key),
            rounds: key.len() / 4 + 6,
        }
    }

    /// The same key once more, with its round keys.
    pub fn copied(&self) -> SlicedAes
        ensures { result ≡ self.now }
    {
        SlicedAes {
            key: self.key.clone().unwrap(),
            keys: self.keys.clone().unwrap(),
            rounds: self.rounds,
        }
    }

    /// The four blocks that four blocks are enciphered to (FIPS 197, section 5.1), each the number that its 16
    /// bytes read as, the highest first.
    pub fn encrypt_four(&self, blocks: &[u128; 4]) -> [u128; 4]
        ensures { (b : ℕ) → b < 4 → block_bytes (slice_index result b)
            ≡ cipher self.now (block_bytes (slice_index blocks.now b)) }
    {
        let keys = self.keys.as_slice();
        let mut state = packed(blocks).add(&keys[0]);
        for n in 0..self.rounds / 4 {
            state = first_round(&state, &keys[4 * n + 1]);
            state = second_round(&state, &keys[4 * n + 2]);
            state = third_round(&state, &keys[4 * n + 3]);
            state = fourth_round(&state, &keys[4 * n + 4]);
        }
        let state = first_round(&state, &keys[self.rounds - 1]);
        unpacked(&last_round(&state, &keys[self.rounds]))
    }

    /// The block that `block` is enciphered to.
    pub fn encrypt_number(&self, block: u128) -> u128
        ensures { block_bytes result ≡ cipher self.now (block_bytes block) }
    {
        self.encrypt_four(&[block, 0, 0, 0])[0]
    }

    /// Overwrites the key and its round keys: what is left is the cipher under as many bytes of zeros.
    pub fn wipe(&mut self)
        ensures { self.new ≡ replicate (length self.old) 0 }
    {
        if self.rounds == 10 {
            *self = SlicedAes::new(&[0u8; 16]);
        } else {
            *self = SlicedAes::new(&[0u8; 32]);
        }
    }
}
