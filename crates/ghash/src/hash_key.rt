ghost use Rattle.std.specs.Prelude.{◌≡◌, ◌++◌, ◌∷◌, [], ℕ, List, bit_xor};
ghost use Rattle.ghash.specs.Field.{product};
ghost use Rattle.ghash.specs.Hash.{ghash, blocks};

use crate::block::block_at;
use crate::table::{multiply_by_table, table_of};
use std::marker::Model;

/// A hash key of GHASH, with its table of products. Contracts see the key: the number that its 16 bytes
/// read as, the highest first.
#[derive(Drop)]
pub struct HashKey {
    h: u128,
    table: [u128; 64],
}

impl Model for HashKey {
    ghost use Rattle.std.specs.Prelude.{ℕ};
    ghost use Rattle.ghash.specs.Windows.{IsTable};

    ghost Value = { ℕ };

    ghost view = { λ k. k.h };

    ghost invariant = { λ k. IsTable k.table k.h };
}

impl HashKey {
    /// A hash key, and the table that it is multiplied by.
    pub fn new(h: u128) -> HashKey
        ensures { result ≡ h }
    {
        HashKey {
            h,
            table: table_of(h),
        }
    }

    /// The same hash key once more, with its table.
    pub fn copied(&self) -> HashKey
        ensures { result ≡ self.now }
    {
        HashKey {
            h: self.h,
            table: self.table,
        }
    }

    /// The product of a block with the key.
    pub fn times(&self, a: u128) -> u128
        ensures { result ≡ product a self.now }
    {
        multiply_by_table(a, &self.table, self.h)
    }

    /// The hash of the blocks before and of one more, where `sum` is the hash of the blocks before. The
    /// hash of no blocks is 0.
    pub fn absorb_block(&self, sum: u128, block: u128) -> u128
        ensures { (before : List ℕ) → sum ≡ ghash self.now before
            → result ≡ ghash self.now (before ++ block ∷ []) }
    {
        self.times(sum ^ block)
    }

    /// The hash of the blocks before and of those of some bytes, the last of which is filled with zeros,
    /// where `sum` is the hash of the blocks before.
    pub fn absorb(&self, sum: u128, bytes: &[u8]) -> u128
        ensures { (before : List ℕ) → sum ≡ ghash self.now before
            → result ≡ ghash self.now (before ++ blocks bytes.now) }
    {
        let mut hash = sum;
        for i in 0..bytes.len().div_ceil(16) {
            hash = self.absorb_block(hash, block_at(bytes, i));
        }
        hash
    }
}
