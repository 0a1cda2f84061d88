ghost use Rattle.std.specs.Prelude.{◌≡◌, ◌+◌, ◌-◌, ◌^◌, ◌↔◌, IsErr, OnOk, OnErr};
ghost use Rattle.hmac_hkdf.specs.Draw.{draw};

use crate::mac::hmac;
use std::marker::Model;
use thiserror::Error;

/// A stream of draws of 32 bytes each, numbered, as functions of a seed. Contracts see the seed and the number of the
/// next draw.
#[derive(Drop)]
pub struct DrawStream {
    seed: [u8; 32],
    number: u64,
}

/// A draw and its number.
#[derive(Clone, Copy, Debug, PartialEq, Eq)]
pub struct Drawn {
    /// The number of the draw.
    pub number: u64,
    /// Its 32 bytes.
    pub bytes: [u8; 32],
}

/// The draw with number `u64::MAX` is the next one, and the last.
#[derive(Clone, Copy, Debug, PartialEq, Eq, Error)]
#[error("the draws of the seed are used up")]
pub struct Spent;

impl Model for DrawStream {
    ghost use Rattle.hmac_hkdf.specs.Draw.{Draws};

    ghost Value = { Draws };

    ghost view = { λ s. record { seed = s.seed; number = s.number } };
}

impl DrawStream {
    /// The stream of a seed from the draw with number 0 on.
    pub fn new(seed: [u8; 32]) -> DrawStream
        ensures { result ≡ record { seed = seed; number = 0 } }
    {
        DrawStream::from_number(seed, 0)
    }

    /// The stream of a seed from the draw with number `first` on.
    pub fn from_number(seed: [u8; 32], first: u64) -> DrawStream
        ensures { result ≡ record { seed = seed; number = first } }
    {
        DrawStream {
            seed,
            number: first,
        }
    }

    /// The next draw, which stays the next one.
    pub fn peek(&self) -> Drawn
        ensures number { result.number ≡ self.now.number }
        ensures bytes { result.bytes ≡ draw self.now.seed self.now.number }
    {
        let number = self.number;
        Drawn {
            number,
            bytes: hmac(&self.seed, &number.to_le_bytes()),
        }
    }

    /// Goes on to the draw after the next one. Returns `Spent` exactly when the number is 2^64 - 1, and changes
    /// nothing.
    pub fn advance(&mut self) -> Result<(), Spent>
        ensures spent { IsErr result ↔ (self.old.number ≡ 2 ^ 64 - 1) }
        ensures ok { OnOk result (self.new ≡ record self.old { number = self.old.number + 1 }) }
        ensures err { OnErr result (self.new ≡ self.old) }
    {
        match self.number.checked_add(1) {
            Some(number) => {
                self.number = number;
                Ok(())
            }
            None => Err(Spent),
        }
    }
}
