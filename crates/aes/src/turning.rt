ghost use Rattle.std.specs.Prelude.{◌≡◌, ◌<◌, ℕ};
ghost use Rattle.std.specs.Int.{bit_at};
ghost use Rattle.aes.specs.Slices.{byte_at, next_place, second_place, shifted_place};

use crate::slices::Slices;

// Bits from the places of the next row, in the same column, where rows stand as the standard has them.
fn next_of(x: u64) -> u64
    ensures { (p : ℕ) → p < 64 → bit_at result p ≡ bit_at x (next_place 0 p) }
{
    x << 16 ^ x >> 48
}

// The same where rows were shifted once without moving a byte.
fn next_turned_once_of(x: u64) -> u64
    ensures { (p : ℕ) → p < 64 → bit_at result p ≡ bit_at x (next_place 1 p) }
{
    (x << 20 ^ x >> 44) & 0xfff0_fff0_fff0_fff0 ^ (x << 4 ^ x >> 60) & 0x000f_000f_000f_000f
}

// The same where they were shifted twice.
fn next_turned_twice_of(x: u64) -> u64
    ensures { (p : ℕ) → p < 64 → bit_at result p ≡ bit_at x (next_place 2 p) }
{
    (x << 24 ^ x >> 40) & 0xff00_ff00_ff00_ff00 ^ (x << 8 ^ x >> 56) & 0x00ff_00ff_00ff_00ff
}

// The same where they were shifted thrice.
fn next_turned_thrice_of(x: u64) -> u64
    ensures { (p : ℕ) → p < 64 → bit_at result p ≡ bit_at x (next_place 3 p) }
{
    (x << 28 ^ x >> 36) & 0xf000_f000_f000_f000 ^ (x << 12 ^ x >> 52) & 0x0fff_0fff_0fff_0fff
}

// Bits from the places of the second row from here, in the same column, where rows were shifted an even
// number of times without moving a byte.
fn second_of(x: u64) -> u64
    ensures { (p : ℕ) → p < 64 → bit_at result p ≡ bit_at x (second_place 0 p) }
{
    x << 32 ^ x >> 32
}

// The same where they were shifted an odd number of times.
fn second_turned_of(x: u64) -> u64
    ensures { (p : ℕ) → p < 64 → bit_at result p ≡ bit_at x (second_place 1 p) }
{
    (x << 40 ^ x >> 24) & 0xff00_ff00_ff00_ff00 ^ (x << 24 ^ x >> 40) & 0x00ff_00ff_00ff_00ff
}

/// The bytes of the next row at each place, in the same column, of states whose rows stand as the standard has
/// them.
pub fn next(s: &Slices) -> Slices
    ensures { (p : ℕ) → p < 64 → byte_at result p ≡ byte_at s.now (next_place 0 p) }
{
    Slices {
        bit0: next_of(s.bit0),
        bit1: next_of(s.bit1),
        bit2: next_of(s.bit2),
        bit3: next_of(s.bit3),
        bit4: next_of(s.bit4),
        bit5: next_of(s.bit5),
        bit6: next_of(s.bit6),
        bit7: next_of(s.bit7),
    }
}

/// The same of states whose rows were shifted once without moving a byte.
pub fn next_turned_once(s: &Slices) -> Slices
    ensures { (p : ℕ) → p < 64 → byte_at result p ≡ byte_at s.now (next_place 1 p) }
{
    Slices {
        bit0: next_turned_once_of(s.bit0),
        bit1: next_turned_once_of(s.bit1),
        bit2: next_turned_once_of(s.bit2),
        bit3: next_turned_once_of(s.bit3),
        bit4: next_turned_once_of(s.bit4),
        bit5: next_turned_once_of(s.bit5),
        bit6: next_turned_once_of(s.bit6),
        bit7: next_turned_once_of(s.bit7),
    }
}

/// The same of states whose rows were shifted twice.
pub fn next_turned_twice(s: &Slices) -> Slices
    ensures { (p : ℕ) → p < 64 → byte_at result p ≡ byte_at s.now (next_place 2 p) }
{
    Slices {
        bit0: next_turned_twice_of(s.bit0),
        bit1: next_turned_twice_of(s.bit1),
        bit2: next_turned_twice_of(s.bit2),
        bit3: next_turned_twice_of(s.bit3),
        bit4: next_turned_twice_of(s.bit4),
        bit5: next_turned_twice_of(s.bit5),
        bit6: next_turned_twice_of(s.bit6),
        bit7: next_turned_twice_of(s.bit7),
    }
}

/// The same of states whose rows were shifted thrice.
pub fn next_turned_thrice(s: &Slices) -> Slices
    ensures { (p : ℕ) → p < 64 → byte_at result p ≡ byte_at s.now (next_place 3 p) }
{
    Slices {
        bit0: next_turned_thrice_of(s.bit0),
        bit1: next_turned_thrice_of(s.bit1),
        bit2: next_turned_thrice_of(s.bit2),
        bit3: next_turned_thrice_of(s.bit3),
        bit4: next_turned_thrice_of(s.bit4),
        bit5: next_turned_thrice_of(s.bit5),
        bit6: next_turned_thrice_of(s.bit6),
        bit7: next_turned_thrice_of(s.bit7),
    }
}

/// The bytes of the second row from each place, in the same column, of states whose rows were shifted an even
/// number of times without moving a byte.
pub fn second(s: &Slices) -> Slices
    ensures { (p : ℕ) → p < 64 → byte_at result p ≡ byte_at s.now (second_place 0 p) }
{
    Slices {
        bit0: second_of(s.bit0),
        bit1: second_of(s.bit1),
        bit2: second_of(s.bit2),
        bit3: second_of(s.bit3),
        bit4: second_of(s.bit4),
        bit5: second_of(s.bit5),
        bit6: second_of(s.bit6),
        bit7: second_of(s.bit7),
    }
}

/// The same of states whose rows were shifted an odd number of times.
pub fn second_turned(s: &Slices) -> Slices
    ensures { (p : ℕ) → p < 64 → byte_at result p ≡ byte_at s.now (second_place 1 p) }
{
    Slices {
        bit0: second_turned_of(s.bit0),
        bit1: second_turned_of(s.bit1),
        bit2: second_turned_of(s.bit2),
        bit3: second_turned_of(s.bit3),
        bit4: second_turned_of(s.bit4),
        bit5: second_turned_of(s.bit5),
        bit6: second_turned_of(s.bit6),
        bit7: second_turned_of(s.bit7),
    }
}

// Bits from where they stand before the second and the fourth row are shifted by two columns.
fn shifted_of(x: u64) -> u64
    ensures { (p : ℕ) → p < 64 → bit_at result p ≡ bit_at x (shifted_place p) }
{
    let differing = (x >> 8 ^ x) & 0x0000_00ff_0000_00ff;
    x ^ differing ^ differing << 8
}

/// The states whose rows were shifted twice without moving a byte, with each byte where the standard has it.
pub fn shifted_twice(s: &Slices) -> Slices
    ensures { (p : ℕ) → p < 64 → byte_at result p ≡ byte_at s.now (shifted_place p) }
{
    Slices {
        bit0: shifted_of(s.bit0),
        bit1: shifted_of(s.bit1),
        bit2: shifted_of(s.bit2),
        bit3: shifted_of(s.bit3),
        bit4: shifted_of(s.bit4),
        bit5: shifted_of(s.bit5),
        bit6: shifted_of(s.bit6),
        bit7: shifted_of(s.bit7),
    }
}
