ghost use Rattle.std.specs.Prelude.{◌≡◌, ◌<◌, ◌↔◌, IsTrue};
ghost use Rattle.ghash.specs.Field.{product, times_x, coefficient};

// x^7 + x^2 + x + 1.
const REDUCED: u128 = 0xe1000000000000000000000000000000;

// x times a block.
pub fn times_x(v: u128) -> u128
    ensures { result ≡ times_x v }
{
    if v % 2 == 1 { (v / 2) ^ REDUCED } else { v / 2 }
}

// Whether x^j is set.
fn has_power(a: u128, j: u32) -> bool
    requires { j < 128 }
    ensures { IsTrue result ↔ (coefficient a j ≡ 1) }
{
    (a >> (127 - j)) & 1 == 1
}

/// The product of two blocks in GF(2^128), bit by bit (SP 800-38D, section 6.3). A block is the number
/// that its 16 bytes read as, the highest first. `HashKey` has the same product by tables.
pub fn multiply(a: u128, b: u128) -> u128
    ensures { result ≡ product a b }
{
    let mut sum = 0u128;
    let mut shifted = b;
    for i in 0..128u32 {
        if has_power(a, i) {
            sum ^= shifted;
        }
        shifted = times_x(shifted);
    }
    sum
}
