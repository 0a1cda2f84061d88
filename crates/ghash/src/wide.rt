/// A sum of blocks that is not yet folded: 256 coefficients, that of x^0 the highest bit of `high` and that
/// of x^128 the highest of `low`.
#[derive(Clone, Copy)]
pub struct Wide {
    pub high: u128,
    pub low: u128,
}

impl Wide {
    ghost use Rattle.std.specs.Prelude.{ℕ, ◌≡◌, ◌+◌, ◌-◌, ◌*◌, ◌^◌, ◌<◌, ◌≤◌, bit_xor, length, slice_index};
    ghost use Rattle.ghash.specs.Windows.{number_of, moved};

    /// The sum with each coefficient `n` places to the left, where none falls out.
    pub fn shifted(&self, n: u32) -> Wide
        requires some { 0 < n }
        requires less { n < 128 }
        requires room { self.now.high < 2 ^ (128 - n) }
        ensures value { number_of result ≡ number_of self.now * 2 ^ n }
        ensures room { (k : ℕ) → self.now.high < 2 ^ k → result.high < 2 ^ (k + n) }
    {
        Wide {
            high: (self.high << n) + (self.low >> (128 - n)),
            low: self.low << n,
        }
    }

    /// The sum of both.
    pub fn plus(&self, other: &Wide) -> Wide
        ensures value { number_of result ≡ bit_xor (number_of self.now) (number_of other.now) }
        ensures high { result.high ≡ bit_xor self.now.high other.now.high }
    {
        Wide {
            high: self.high ^ other.high,
            low: self.low ^ other.low,
        }
    }

    /// The sum six places to the left, and with it two more blocks: `lower` at its end, and `upper` 64 places
    /// to the left of there.
    pub fn next(&self, upper: u128, lower: u128) -> Wide
        requires { self.now.high < 2 ^ 122 }
        ensures value { number_of result
            ≡ bit_xor (number_of self.now * 64) (bit_xor (upper * 2 ^ 64) lower) }
        ensures room { (k : ℕ) → 58 ≤ k → self.now.high < 2 ^ k → result.high < 2 ^ (k + 6) }
    {
        self.shifted(6).plus(&Wide {
            high: upper >> 64,
            low: (upper << 64) ^ lower,
        })
    }

    /// The block of the sum. x^128 is x^7 + x^2 + x + 1, so that each coefficient of `low` counts at four
    /// places, and the last seven come round once more.
    pub fn folded(&self) -> u128
        ensures { result ≡ moved 128 (number_of self.now) }
    {
        let last = self.low % 128;
        let low = self.low ^ ((last << 127) ^ (last << 126) ^ (last << 121));
        self.high ^ ((low ^ (low >> 1)) ^ ((low >> 2) ^ (low >> 7)))
    }
}
