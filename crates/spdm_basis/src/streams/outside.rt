ghost use Rattle.std.specs.Prelude.{◌≡◌, ◌<◌, ◌≤◌, ℕ, List, Option, length, take, IfOk, OnOk, OnErr};
ghost use Rattle.spdm_basis.specs.Stream.{Gives, GivesSeed, IsAtEnd, HasFault, Takes};

use thiserror::Error;

/// A call of a source, a sink or of seeds failed.
#[derive(Clone, Copy, Debug, PartialEq, Eq, Error)]
#[error("reading, writing or taking a seed failed")]
pub struct Failed;

/// Where bytes come from.
pub trait Source {
    /// The bytes that it has left, if known.
    ghost remaining: { Self → Option (List ℕ) };

    /// The number of failed calls. It never decreases, and saturates at `u64::MAX`.
    ghost faults: { Self → ℕ };

    /// Reads the next bytes into the front of `into`, and returns how many; 0 means end of input. After `Failed` no
    /// bytes were consumed.
    fn read(&mut self, into: &mut [u8]) -> Result<usize, Failed>
        requires { 0 < length into.old }
        ensures count { IfOk result (λ n. n ≤ length into.old) }
        ensures gives { IfOk result (λ n. Gives (remaining self.old) (take n into.new)
            (remaining self.new)) }
        ensures end { IfOk result (λ n. n ≡ 0 → IsAtEnd (remaining self.old)) }
        ensures later { faults self.old ≤ faults self.new }
        ensures fault { OnErr result (HasFault (faults self.old) (faults self.new)) }
        ensures same { OnErr result (remaining self.new ≡ remaining self.old) };
}

/// Where bytes go.
pub trait Sink {
    /// The bytes that it holds, if known.
    ghost contents: { Self → Option (List ℕ) };

    /// The number of failed calls. It never decreases, and saturates at `u64::MAX`.
    ghost faults: { Self → ℕ };

    /// Writes the first bytes of `from`, at least one, and returns how many. After `Failed` nothing was written.
    fn write(&mut self, from: &[u8]) -> Result<usize, Failed>
        requires { 0 < length from.now }
        ensures some { IfOk result (λ n. 0 < n) }
        ensures count { IfOk result (λ n. n ≤ length from.now) }
        ensures takes { IfOk result (λ n. Takes (contents self.old) (take n from.now)
            (contents self.new)) }
        ensures later { faults self.old ≤ faults self.new }
        ensures fault { OnErr result (HasFault (faults self.old) (faults self.new)) }
        ensures same { OnErr result (contents self.new ≡ contents self.old) };
}

/// Where seeds come from.
pub trait Seeds {
    /// The seeds that it has left, if known.
    ghost left: { Self → Option (List (List ℕ)) };

    /// The number of failed calls. It never decreases, and saturates at `u64::MAX`.
    ghost faults: { Self → ℕ };

    /// The next seed. After `Failed` no seed was consumed.
    fn seed(&mut self) -> Result<[u8; 32], Failed>
        ensures gives { IfOk result (λ seed. GivesSeed (left self.old) seed (left self.new)) }
        ensures later { faults self.old ≤ faults self.new }
        ensures fault { OnErr result (HasFault (faults self.old) (faults self.new)) }
        ensures same { OnErr result (left self.new ≡ left self.old) };
}
