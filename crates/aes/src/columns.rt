ghost use Rattle.std.specs.Prelude.{◌≡◌, ◌∷◌, [], map};
ghost use Rattle.std.specs.List.{range_with_len};
ghost use Rattle.byteorder.specs.Endian.{big_bytes};
ghost use Rattle.aes.specs.Cipher.{sub_bytes, mixed};
ghost use Rattle.aes.specs.Begun.{column_of};

use crate::sbox::substitute;
use crate::tables::{first_row, fourth_row, second_row, third_row};
use byteorder::{BigEndian, ByteOrder};

// The column that SubBytes and MixColumns make of four bytes.
fn mixed(a: u8, b: u8, c: u8, d: u8) -> u32
    ensures bytes { big_bytes 4 result
        ≡ map (mixed (sub_bytes (a ∷ b ∷ c ∷ d ∷ []))) (range_with_len 0 4) }
    ensures value { result ≡ column_of a b c d }
{
    first_row(a) ^ second_row(b) ^ third_row(c) ^ fourth_row(d)
}

// The column that SubBytes makes of four bytes.
fn substituted(a: u8, b: u8, c: u8, d: u8) -> u32
    ensures { big_bytes 4 result ≡ sub_bytes (a ∷ b ∷ c ∷ d ∷ []) }
{
    substitute(a) as u32 * (1 << 24)
        + substitute(b) as u32 * (1 << 16)
        + substitute(c) as u32 * (1 << 8)
        + substitute(d) as u32
}

/// A state as four numbers, one for each column. The byte of the first row is the highest (FIPS 197,
/// section 3.5).
#[derive(Clone, Copy, Default)]
pub struct Columns {
    pub first: u32,
    pub second: u32,
    pub third: u32,
    pub fourth: u32,
}

impl Columns {
    ghost use Rattle.std.specs.Prelude.{◌≡◌, length};
    ghost use Rattle.aes.specs.Cipher.{sub_bytes, shift_rows, mix_columns, add_round_key};
    ghost use Rattle.aes.specs.Words.{block_bytes, bytes_of};
    ghost use Rattle.aes.specs.Begun.{columns_of, sum_of, round_of};

    /// The state of a block, the number that its 16 bytes read as, the highest first.
    pub fn of(block: u128) -> Columns
        ensures bytes { bytes_of result ≡ block_bytes block }
        ensures value { result ≡ columns_of block }
    {
        Columns {
            first: (block >> 96) as u32,
            second: ((block >> 64) % 0x1_0000_0000) as u32,
            third: ((block >> 32) % 0x1_0000_0000) as u32,
            fourth: (block % 0x1_0000_0000) as u32,
        }
    }

    /// The state of the 16 bytes of a block.
    pub fn of_bytes(block: &[u8]) -> Columns
        requires { length block.now ≡ 16 }
        ensures { bytes_of result ≡ block.now }
    {
        Columns::of(BigEndian::read_u128(block))
    }

    /// The block of a state.
    pub fn block(&self) -> u128
        ensures { block_bytes result ≡ bytes_of self.now }
    {
        let left = self.first as u64 * (1 << 32) + self.second as u64;
        let right = self.third as u64 * (1 << 32) + self.fourth as u64;
        left as u128 * (1 << 64) + right as u128
    }

    /// AddRoundKey (FIPS 197, section 5.1.4).
    pub fn add(&self, key: &Columns) -> Columns
        ensures bytes { bytes_of result ≡ add_round_key (bytes_of self.now) (bytes_of key.now) }
        ensures value { result ≡ sum_of self.now key.now }
    {
        Columns {
            first: self.first ^ key.first,
            second: self.second ^ key.second,
            third: self.third ^ key.third,
            fourth: self.fourth ^ key.fourth,
        }
    }

    /// A round (FIPS 197, section 5.1).
    pub fn round(&self, key: &Columns) -> Columns
        ensures bytes { bytes_of result
            ≡ add_round_key (mix_columns (shift_rows (sub_bytes (bytes_of self.now))))
            (bytes_of key.now) }
        ensures value { result ≡ round_of self.now key.now }
    {
        let a = self.first.to_be_bytes();
        let b = self.second.to_be_bytes();
        let c = self.third.to_be_bytes();
        let d = self.fourth.to_be_bytes();
        Columns {
            first: mixed(a[0], b[1], c[2], d[3]),
            second: mixed(b[0], c[1], d[2], a[3]),
            third: mixed(c[0], d[1], a[2], b[3]),
            fourth: mixed(d[0], a[1], b[2], c[3]),
        }
        .add(key)
    }

    /// The last round, which leaves MixColumns out (FIPS 197, section 5.1).
    pub fn last_round(&self, key: &Columns) -> Columns
        ensures { bytes_of result
            ≡ add_round_key (shift_rows (sub_bytes (bytes_of self.now))) (bytes_of key.now) }
    {
        let a = self.first.to_be_bytes();
        let b = self.second.to_be_bytes();
        let c = self.third.to_be_bytes();
        let d = self.fourth.to_be_bytes();
        Columns {
            first: substituted(a[0], b[1], c[2], d[3]),
            second: substituted(b[0], c[1], d[2], a[3]),
            third: substituted(c[0], d[1], a[2], b[3]),
            fourth: substituted(d[0], a[1], b[2], c[3]),
        }
        .add(key)
    }
}
