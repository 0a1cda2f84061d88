ghost use Rattle.std.specs.Prelude.{◌≡◌, ◌*◌};
ghost use Rattle.ghash.specs.CarryLess.{carry_less, sum_of_products};

// Every fourth bit of a word: those at the places 0, 4, 8, .., those at 1, 5, 9, .., and so on.
const FIRST: u64 = 0x1111111111111111;

const SECOND: u64 = 0x2222222222222222;

const THIRD: u64 = 0x4444444444444444;

const FOURTH: u64 = 0x8888888888888888;

// The same of two words.
const FIRST_OF_TWO: u128 = 0x11111111111111111111111111111111;

const SECOND_OF_TWO: u128 = 0x22222222222222222222222222222222;

const THIRD_OF_TWO: u128 = 0x44444444444444444444444444444444;

const FOURTH_OF_TWO: u128 = 0x88888888888888888888888888888888;

// The product of two words as numbers.
#[inline(always)]
fn times(x: u64, y: u64) -> u128
    ensures { result ≡ x * y }
{
    x as u128 * y as u128
}

// Four products of words as numbers, added bit by bit.
#[inline(always)]
fn sum_of_products(x: [u64; 4], y: [u64; 4]) -> u128
    ensures { result ≡ sum_of_products x y }
{
    (times(x[0], y[0]) ^ times(x[1], y[1])) ^ (times(x[2], y[2]) ^ times(x[3], y[3]))
}

/// The product of two words without carries. Every fourth bit of each word is taken at a time: in a product
/// of such numbers each sum of bits has four places to itself, and its lowest bit is that of the product
/// without carries. A sum is at most 15, so that it stays in its places, since the four highest bits of `y`
/// are left out, and at most 15 of every fourth bit remain. Those four are multiplied one by one, which
/// carries nothing.
#[inline(always)]
pub fn carry_less(x: u64, y: u64) -> u128
    ensures { result ≡ carry_less 64 x y }
{
    let xs = [x & FIRST, x & SECOND, x & THIRD, x & FOURTH];
    let (first, second) = (y & (FIRST >> 4), y & (SECOND >> 4));
    let (third, fourth) = (y & (THIRD >> 4), y & (FOURTH >> 4));
    let sums = [
        sum_of_products(xs, [first, fourth, third, second]) & FIRST_OF_TWO,
        sum_of_products(xs, [second, first, fourth, third]) & SECOND_OF_TWO,
        sum_of_products(xs, [third, second, first, fourth]) & THIRD_OF_TWO,
        sum_of_products(xs, [fourth, third, second, first]) & FOURTH_OF_TWO,
    ];
    let last = sum_of_products(
        [x; 4],
        [y & (1 << 60), y & (1 << 61), y & (1 << 62), y & (1 << 63)],
    );
    ((sums[0] ^ sums[1]) ^ (sums[2] ^ sums[3])) ^ last
}
