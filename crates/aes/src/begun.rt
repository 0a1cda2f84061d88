ghost use Rattle.std.specs.Prelude.{◌≡◌};
ghost use Rattle.aes.specs.Begun.{share_of};

use crate::columns::Columns;
use crate::tables::{first_row, fourth_row, second_row, third_row};

/// A block that `Aes::begin` has enciphered as far as it can without the last byte: what the first two
/// rounds make of the other 15.
#[derive(Clone, Copy)]
pub struct Begun {
    // The last byte of the key before the first round.
    key: u8,
    // The first column after the first round, but for what the last byte adds.
    first: u32,
    // The columns after the second round, but for what that column adds.
    rest: Columns,
}

// What the first column of a state adds to each column in a round.
fn share(column: u32) -> Columns
    ensures { result ≡ share_of column }
{
    let bytes = column.to_be_bytes();
    Columns {
        first: first_row(bytes[0]),
        second: fourth_row(bytes[3]),
        third: third_row(bytes[2]),
        fourth: second_row(bytes[1]),
    }
}

impl Begun {
    ghost use Rattle.std.specs.Prelude.{◌≡◌, ◌/◌, ◌%◌, ◌^◌, ℕ, bit_xor};
    ghost use Rattle.aes.specs.Begun.{round_of, state_of};

    /// The first two rounds on a state, under their keys. Its last byte is that of some block and `key` added,
    /// and may be any other such byte.
    pub fn of(start: &Columns, key: u8, first: &Columns, second: &Columns) -> Begun
        ensures { (fourth last : ℕ) → fourth / 2 ^ 8 ≡ start.now.fourth / 2 ^ 8
            → fourth % 2 ^ 8 ≡ bit_xor last key
            → state_of result last
            ≡ round_of (round_of (record start.now { fourth = fourth }) first.now) second.now }
    {
        let one = start.round(first);
        let two = one.round(second);
        Begun {
            key,
            first: one.first ^ fourth_row((start.fourth % 256) as u8),
            rest: two.add(&share(one.first)),
        }
    }

    /// The state after two rounds, with the last byte.
    pub fn state(&self, last: u8) -> Columns
        ensures { result ≡ state_of self.now last }
    {
        self.rest
            .add(&share(self.first ^ fourth_row(last ^ self.key)))
    }
}
