ghost use Rattle.std.specs.Prelude.{◌≡◌, ◌<◌, ◌^◌, ◌++◌, ◌∷◌, [], ℕ, List};
ghost use Rattle.ghash.specs.CarryLess.{carry_less};
ghost use Rattle.ghash.specs.Field.{product};
ghost use Rattle.ghash.specs.Hash.{ghash, blocks};
ghost use Rattle.ghash.specs.Windows.{number_of};

use crate::block::block_at;
use crate::carry_less::carry_less;
use crate::wide::Wide;
use std::marker::Model;

// The product of two blocks without carries, by three products of words (Karatsuba).
#[inline(always)]
fn multiply_words(a: u128, b: u128) -> Wide
    ensures value { number_of result ≡ carry_less 128 a b }
    ensures room { result.high < 2 ^ 127 }
{
    let (first, last) = ((a >> 64) as u64, (a % (1 << 64)) as u64);
    let (other_first, other_last) = ((b >> 64) as u64, (b % (1 << 64)) as u64);
    let high = carry_less(first, other_first);
    let low = carry_less(last, other_last);
    let middle = carry_less(first ^ last, other_first ^ other_last) ^ (high ^ low);
    Wide { high, low }.plus(&Wide {
        high: middle >> 64,
        low: middle << 64,
    })
}

/// A hash key of GHASH without a table: no place that is read and no branch depends on the key or on what
/// is hashed. Contracts see the key: the number that its 16 bytes read as, the highest first.
#[derive(Drop)]
pub struct TablelessHashKey {
    h: u128,
}

impl Model for TablelessHashKey {
    ghost use Rattle.std.specs.Prelude.{ℕ};

    ghost Value = { ℕ };

    ghost view = { λ k. k.h };
}

impl TablelessHashKey {
    /// A hash key.
    pub fn new(h: u128) -> TablelessHashKey
        ensures { result ≡ h }
    {
        TablelessHashKey { h }
    }

    /// The same hash key once more.
    pub fn copied(&self) -> TablelessHashKey
        ensures { result ≡ self.now }
    {
        TablelessHashKey { h: self.h }
    }

    /// Overwrites the key by zeros.
    pub fn wipe(&mut self)
        ensures { self.new ≡ 0 }
    {
        self.h = 0;
    }

    /// The product of a block with the key.
    #[inline(always)]
    pub fn times(&self, a: u128) -> u128
        ensures { result ≡ product a self.now }
    {
        multiply_words(a, self.h).shifted(1).folded()
    }

    /// The hash of the blocks before and of one more, where `sum` is the hash of the blocks before. The
    /// hash of no blocks is 0.
    #[inline(always)]
    pub fn absorb_block(&self, sum: u128, block: u128) -> u128
        ensures { (before : List ℕ) → sum ≡ ghash self.now before
            → result ≡ ghash self.now (before ++ block ∷ []) }
    {
        self.times(sum ^ block)
    }

    /// The hash of the blocks before and of those of some bytes, the last of which is filled with zeros,
    /// where `sum` is the hash of the blocks before.
    pub fn absorb(&self, sum: u128, bytes: &[u8]) -> u128
        ensures { (before : List ℕ) → sum ≡ ghash self.now before
            → result ≡ ghash self.now (before ++ blocks bytes.now) }
    {
        let mut hash = sum;
        for i in 0..bytes.len().div_ceil(16) {
            hash = self.absorb_block(hash, block_at(bytes, i));
        }
        hash
    }
}
