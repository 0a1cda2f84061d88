ghost use Rattle.std.specs.Prelude.{◌≡◌, ◌<◌, ℕ};
ghost use Rattle.aes.specs.Cipher.{sub_bytes, shift_rows, mix_columns, add_round_key};
ghost use Rattle.aes.specs.Slices.{block_at};

use crate::circuit::substituted;
use crate::mixing::{mixed, mixed_turned_once, mixed_turned_thrice, mixed_turned_twice};
use crate::slices::Slices;
use crate::turning::shifted_twice;

/// A round (FIPS 197, section 5.1) on states whose rows were shifted never without moving a byte. After
/// it they were shifted once.
#[inline(always)]
pub fn first_round(s: &Slices, key: &Slices) -> Slices
    ensures { (b : ℕ) → b < 4 → block_at 1 result b
        ≡ add_round_key (mix_columns (shift_rows (sub_bytes (block_at 0 s.now b))))
        (block_at 1 key.now b) }
{
    mixed_turned_once(&substituted(s)).add(key)
}

/// A round (FIPS 197, section 5.1) on states whose rows were shifted once without moving a byte. After
/// it they were shifted twice.
#[inline(always)]
pub fn second_round(s: &Slices, key: &Slices) -> Slices
    ensures { (b : ℕ) → b < 4 → block_at 2 result b
        ≡ add_round_key (mix_columns (shift_rows (sub_bytes (block_at 1 s.now b))))
        (block_at 2 key.now b) }
{
    mixed_turned_twice(&substituted(s)).add(key)
}

/// A round (FIPS 197, section 5.1) on states whose rows were shifted twice without moving a byte. After
/// it they were shifted thrice.
#[inline(always)]
pub fn third_round(s: &Slices, key: &Slices) -> Slices
    ensures { (b : ℕ) → b < 4 → block_at 3 result b
        ≡ add_round_key (mix_columns (shift_rows (sub_bytes (block_at 2 s.now b))))
        (block_at 3 key.now b) }
{
    mixed_turned_thrice(&substituted(s)).add(key)
}

/// A round (FIPS 197, section 5.1) on states whose rows were shifted thrice without moving a byte. After
/// it they were shifted four times, which is never.
#[inline(always)]
pub fn fourth_round(s: &Slices, key: &Slices) -> Slices
    ensures { (b : ℕ) → b < 4 → block_at 0 result b
        ≡ add_round_key (mix_columns (shift_rows (sub_bytes (block_at 3 s.now b))))
        (block_at 0 key.now b) }
{
    mixed(&substituted(s)).add(key)
}

/// The last round, which leaves MixColumns out (FIPS 197, section 5.1), on states whose rows were shifted once
/// without moving a byte. After it each byte stands where the standard has it.
#[inline(always)]
pub fn last_round(s: &Slices, key: &Slices) -> Slices
    ensures { (b : ℕ) → b < 4 → block_at 0 result b
        ≡ add_round_key (shift_rows (sub_bytes (block_at 1 s.now b))) (block_at 0 key.now b) }
{
    shifted_twice(&substituted(s)).add(key)
}
