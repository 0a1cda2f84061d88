/// 64 bytes by slices: bit `p` of the word `bit0` is the lowest bit of the byte at place `p`, and so on up
/// to the highest bits in `bit7`.
#[derive(Clone, Copy, Default)]
pub struct Slices {
    pub bit0: u64,
    pub bit1: u64,
    pub bit2: u64,
    pub bit3: u64,
    pub bit4: u64,
    pub bit5: u64,
    pub bit6: u64,
    pub bit7: u64,
}

impl Slices {
    ghost use Rattle.std.specs.Prelude.{◌≡◌, ℕ, bit_xor};
    ghost use Rattle.aes.specs.Slices.{byte_at};

    /// The sums of the bytes at each place: AddRoundKey (FIPS 197, section 5.1.4), where the other slices are
    /// those of a round key.
    pub fn add(&self, other: &Slices) -> Slices
        ensures { (p : ℕ) → byte_at result p ≡ bit_xor (byte_at self.now p) (byte_at other.now p) }
    {
        Slices {
            bit0: self.bit0 ^ other.bit0,
            bit1: self.bit1 ^ other.bit1,
            bit2: self.bit2 ^ other.bit2,
            bit3: self.bit3 ^ other.bit3,
            bit4: self.bit4 ^ other.bit4,
            bit5: self.bit5 ^ other.bit5,
            bit6: self.bit6 ^ other.bit6,
            bit7: self.bit7 ^ other.bit7,
        }
    }
}
