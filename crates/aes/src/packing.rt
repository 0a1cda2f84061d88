ghost use Rattle.std.specs.Prelude.{◌≡◌, ◌<◌, ◌+◌, ◌*◌, ◌/◌, ◌%◌, ◌^◌, ◌∷◌, [], ℕ, slice_index};
ghost use Rattle.std.specs.Int.{bit_at};
ghost use Rattle.aes.specs.Words.{block_bytes};
ghost use Rattle.aes.specs.Slices.{block_at, spread_place, gathered_place};

use crate::slices::Slices;

// Exchanges the bits of `low` that stand `shift` places above those of the mask with the bits of `high` at
// the places of the mask.
macro_rules! exchange {
    ($low:ident, $high:ident, $shift:literal, $mask:literal) => {{
        let differing = (($low >> $shift) ^ $high) & $mask;
        $high ^= differing;
        $low ^= differing << $shift;
    }};
}

// The bits of a block in the order of the places of its bytes: in the first word the lower four bits of each
// byte, in the second the upper four.
fn spread(block: u128) -> (u64, u64)
    ensures low { (p : ℕ) → p < 64 → bit_at result.0 p ≡ bit_at block (spread_place p) }
    ensures high { (p : ℕ) → p < 64 → bit_at result.1 p ≡ bit_at block (spread_place p + 4) }
{
    let mut low = (block % (1 << 64)) as u64;
    let mut high = (block >> 64) as u64;
    exchange!(low, high, 8, 0x00ff_00ff_00ff_00ff);
    exchange!(low, high, 16, 0x0000_ffff_0000_ffff);
    exchange!(low, high, 32, 0x0000_0000_ffff_ffff);
    exchange!(low, high, 4, 0x0f0f_0f0f_0f0f_0f0f);
    (low, high)
}

// Two words as one.
fn joined(high: u64, low: u64) -> u128
    ensures { result ≡ high * 2 ^ 64 + low }
{
    high as u128 * (1 << 64) + low as u128
}

// The block whose bits were spread to two words.
fn gathered(first: u64, second: u64) -> u128
    ensures { (n : ℕ) → n < 128 → bit_at result n
        ≡ bit_at (slice_index (first ∷ second ∷ []) (n / 4 % 2)) (gathered_place n) }
{
    let mut low = first;
    let mut high = second;
    exchange!(low, high, 4, 0x0f0f_0f0f_0f0f_0f0f);
    exchange!(low, high, 32, 0x0000_0000_ffff_ffff);
    exchange!(low, high, 16, 0x0000_ffff_0000_ffff);
    exchange!(low, high, 8, 0x00ff_00ff_00ff_00ff);
    joined(high, low)
}

// Four words whose fours of bits are the columns of those of the words given.
fn transposed(first: u64, second: u64, third: u64, fourth: u64) -> [u64; 4]
    ensures { (w p : ℕ) → w < 4 → p < 64 → bit_at (slice_index result w) p
        ≡ bit_at (slice_index (first ∷ second ∷ third ∷ fourth ∷ []) (p % 4)) (p / 4 * 4 + w) }
{
    let mut a = first;
    let mut b = second;
    let mut c = third;
    let mut d = fourth;
    exchange!(a, b, 1, 0x5555_5555_5555_5555);
    exchange!(c, d, 1, 0x5555_5555_5555_5555);
    exchange!(a, c, 2, 0x3333_3333_3333_3333);
    exchange!(b, d, 2, 0x3333_3333_3333_3333);
    [a, b, c, d]
}

/// The slices of four blocks, each the number that its 16 bytes read as, the highest first.
#[inline(always)]
pub fn packed(blocks: &[u128; 4]) -> Slices
    ensures { (b : ℕ) → b < 4
        → block_at 0 result b ≡ block_bytes (slice_index blocks.now b) }
{
    let (a, e) = spread(blocks[0]);
    let (b, f) = spread(blocks[1]);
    let (c, g) = spread(blocks[2]);
    let (d, h) = spread(blocks[3]);
    let lower = transposed(a, b, c, d);
    let upper = transposed(e, f, g, h);
    Slices {
        bit0: lower[0],
        bit1: lower[1],
        bit2: lower[2],
        bit3: lower[3],
        bit4: upper[0],
        bit5: upper[1],
        bit6: upper[2],
        bit7: upper[3],
    }
}

/// The four blocks of slices.
#[inline(always)]
pub fn unpacked(s: &Slices) -> [u128; 4]
    ensures { (b : ℕ) → b < 4
        → block_bytes (slice_index result b) ≡ block_at 0 s.now b }
{
    let lower = transposed(s.bit0, s.bit1, s.bit2, s.bit3);
    let upper = transposed(s.bit4, s.bit5, s.bit6, s.bit7);
    [
        gathered(lower[0], upper[0]),
        gathered(lower[1], upper[1]),
        gathered(lower[2], upper[2]),
        gathered(lower[3], upper[3]),
    ]
}
