ghost use Rattle.std.specs.Prelude.{◌≡◌, ◌<◌, ℕ, bit_xor};
ghost use Rattle.aes.specs.ByteField.{times};
ghost use Rattle.aes.specs.Cipher.{mix_columns};
ghost use Rattle.aes.specs.Slices.{byte_at, block_at};

use crate::slices::Slices;
use crate::turning::{
    next, next_turned_once, next_turned_thrice, next_turned_twice, second, second_turned,
};

// The sums of MixColumns, at each place: of the byte of the next row, of the two bytes that follow it, and
// {02} times the sum of the byte here and that of the next row.
fn combined(next: &Slices, sum: &Slices, rest: &Slices) -> Slices
    ensures { (p : ℕ) → byte_at result p
        ≡ bit_xor (bit_xor (byte_at next.now p) (byte_at rest.now p)) (times 2 (byte_at sum.now p)) }
{
    Slices {
        bit0: next.bit0 ^ rest.bit0 ^ sum.bit7,
        bit1: next.bit1 ^ rest.bit1 ^ sum.bit0 ^ sum.bit7,
        bit2: next.bit2 ^ rest.bit2 ^ sum.bit1,
        bit3: next.bit3 ^ rest.bit3 ^ sum.bit2 ^ sum.bit7,
        bit4: next.bit4 ^ rest.bit4 ^ sum.bit3 ^ sum.bit7,
        bit5: next.bit5 ^ rest.bit5 ^ sum.bit4,
        bit6: next.bit6 ^ rest.bit6 ^ sum.bit5,
        bit7: next.bit7 ^ rest.bit7 ^ sum.bit6,
    }
}

/// MixColumns (FIPS 197, section 5.1.3) of states whose rows stand where the standard has them.
#[inline(always)]
pub fn mixed(s: &Slices) -> Slices
    ensures { (b : ℕ) → b < 4 → block_at 0 result b ≡ mix_columns (block_at 0 s.now b) }
{
    let next = next(s);
    let sum = s.add(&next);
    combined(&next, &sum, &second(&sum))
}

/// MixColumns (FIPS 197, section 5.1.3) of states whose rows were shifted once without moving a byte.
#[inline(always)]
pub fn mixed_turned_once(s: &Slices) -> Slices
    ensures { (b : ℕ) → b < 4 → block_at 1 result b ≡ mix_columns (block_at 1 s.now b) }
{
    let next = next_turned_once(s);
    let sum = s.add(&next);
    combined(&next, &sum, &second_turned(&sum))
}

/// MixColumns (FIPS 197, section 5.1.3) of states whose rows were shifted twice without moving a byte.
#[inline(always)]
pub fn mixed_turned_twice(s: &Slices) -> Slices
    ensures { (b : ℕ) → b < 4 → block_at 2 result b ≡ mix_columns (block_at 2 s.now b) }
{
    let next = next_turned_twice(s);
    let sum = s.add(&next);
    combined(&next, &sum, &second(&sum))
}

/// MixColumns (FIPS 197, section 5.1.3) of states whose rows were shifted thrice without moving a byte.
#[inline(always)]
pub fn mixed_turned_thrice(s: &Slices) -> Slices
    ensures { (b : ℕ) → b < 4 → block_at 3 result b ≡ mix_columns (block_at 3 s.now b) }
{
    let next = next_turned_thrice(s);
    let sum = s.add(&next);
    combined(&next, &sum, &second_turned(&sum))
}
