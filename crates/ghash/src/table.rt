ghost use Rattle.std.specs.Prelude.{◌≡◌, ◌<◌, ◌≤◌, ◌+◌, ◌-◌, ◌*◌, ◌/◌, ◌%◌, ◌^◌, ℕ, slice_index};
ghost use Rattle.ghash.specs.Field.{product};
ghost use Rattle.ghash.specs.Windows.{IsTable};

use crate::field::times_x;
use crate::wide::Wide;

// The entries of the table of `b` from 2^i up to 2^(i + 1), from those below; `entry` is the first.
fn extend(table: &mut [u128; 64], i: u32, entry: u128, b: u128)
    requires place { i < 6 }
    requires entry { entry ≡ product (2 ^ i * 2 ^ 122) b }
    requires below { (w : ℕ) → w < 2 ^ i → slice_index table.old w ≡ product (w * 2 ^ 122) b }
    ensures { (w : ℕ) → w < 2 ^ (i + 1) → slice_index table.new w ≡ product (w * 2 ^ 122) b }
{
    let count = 1usize << i;
    for w in 0..count {
        table[count + w] = table[w] ^ entry;
    }
}

/// The products of `b` with each six first coefficients.
pub fn table_of(b: u128) -> [u128; 64]
    ensures { IsTable result b }
{
    let second = times_x(b);
    let third = times_x(second);
    let fourth = times_x(third);
    let fifth = times_x(fourth);
    let sixth = times_x(fifth);
    let mut table = [0u128; 64];
    extend(&mut table, 0, sixth, b);
    extend(&mut table, 1, fifth, b);
    extend(&mut table, 2, fourth, b);
    extend(&mut table, 3, third, b);
    extend(&mut table, 4, second, b);
    extend(&mut table, 5, b, b);
    table
}

// Six coefficients of half a block, the last of them `at` places from the right.
fn window(half: u64, at: u32) -> usize
    requires { at < 64 }
    ensures { result ≡ half / 2 ^ at % 64 }
{
    ((half >> at) % 64) as usize
}

/// The product of `a` with the block `b`, whose table is given. It goes by six coefficients of each half of
/// `a`, in two sums that do not wait for each other: one over the first 30 coefficients of both halves, and one
/// over the others.
pub fn multiply_by_table(a: u128, table: &[u128; 64], b: u128) -> u128
    requires { IsTable table.now b }
    ensures { result ≡ product a b }
{
    let x = (a >> 64) as u64;
    let y = (a % (1 << 64)) as u64;
    let mut first = Wide { high: 0, low: 0 };
    let mut others = first;
    for j in 0..5u32 {
        let at = 58 - 6 * j;
        first = first.next(table[window(x, at)], table[window(y, at)]);
        others = others.next(table[window(x, at - 30)], table[window(y, at - 30)]);
    }
    let others = others.next(table[(x % 16 * 4) as usize], table[(y % 16 * 4) as usize]);
    first.shifted(36).plus(&others).shifted(4).folded()
}
