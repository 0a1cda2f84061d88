use spdm_grammar::names::MAX_RECORDS;
use std::marker::Model;

/// The sequence number of the next record under a key, from 0 to 65,536: a key seals at most 65,536 records (DSP0277,
/// "Sequence number"). In contracts, a number.
#[derive(Drop)]
pub struct NextNumber {
    number: u32,
}

impl Model for NextNumber {
    ghost use Rattle.std.specs.Prelude.{ℕ, ◌≤◌};
    ghost use Rattle.spdm_grammar.specs.declared.names.TheConstants.{MAX_RECORDS};

    ghost Value = { ℕ };

    ghost view = { λ n. n.number };

    ghost invariant = { λ n. n.number ≤ MAX_RECORDS };
}

impl NextNumber {
    ghost use Rattle.std.specs.Prelude.{◌≡◌, ◌<◌, ◌≤◌, ◌+◌, ◌==◌, false, MatchOption};
    ghost use Rattle.spdm_grammar.specs.declared.names.TheConstants.{MAX_RECORDS};

    /// The number of the first record.
    pub fn first() -> NextNumber
        ensures { result ≡ 0 }
    {
        NextNumber { number: 0 }
    }

    /// Whether the key has reached its limit of records.
    pub fn is_spent(&self) -> bool
        ensures value { result ≡ (self.now == MAX_RECORDS) }
        ensures few { result ≡ false → self.now < MAX_RECORDS }
    {
        self.number == MAX_RECORDS
    }

    /// The number.
    pub fn number(&self) -> u32
        ensures { result ≡ self.now }
    {
        self.number
    }

    /// A record was sealed or opened under the key, which is not spent.
    pub fn advance(&mut self)
        requires { self.old < MAX_RECORDS }
        ensures { self.new ≡ self.old + 1 }
    {
        self.number += 1;
    }
    /// The number before it; `None` where it is that of the first record.
    pub fn before(&self) -> Option<u16>
        ensures { MatchOption result (self.now ≡ 0) (λ number. self.now ≡ number + 1) }
    {
        if self.number == 0 {
            return None;
        }
        Some((self.number - 1) as u16)
    }
}
