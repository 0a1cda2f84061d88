ghost use Rattle.std.specs.Prelude.{◌≡◌, ◌≤◌, ◌+◌, ℕ, List, Option, true, is_ok, length, OnOk, OnErr};
ghost use Rattle.spdm_basis.specs.Stream.{HasFault};
ghost use Rattle.boot_keeper.specs.Device.{GivesBytes, TakesBytes, TearsBytes};

use spdm_basis::Failed;

/// How many bytes a device has.
pub const SIZE: usize = 18;

/// The bytes of a device.
pub type Device = [u8; SIZE];

/// A device of 18 bytes that keeps what is written to it, also over a crash: two slots, each a number
/// of eight bytes, the lowest first, and a gate byte.
///
/// A crash during a write leaves what a failed one may leave, and a crash between two calls leaves
/// what stands.
pub trait Keeper {
    /// The bytes that it holds, where it tells them.
    ghost contents: { Self → Option (List ℕ) };

    /// The number of failed calls. It never decreases, and saturates at `u64::MAX`.
    ghost faults: { Self → ℕ };

    /// No call of it fails, now or later.
    ghost is_sound: { Self → Type 0 };

    /// Reads the bytes from place `at` on. It changes none, also where it fails.
    fn read(&mut self, at: u8, into: &mut [u8]) -> Result<(), Failed>
        requires { at + length into.old ≤ 18 }
        ensures gives { OnOk result (GivesBytes (contents self.old) at into.new) }
        ensures same { contents self.new ≡ contents self.old }
        ensures later { faults self.old ≤ faults self.new }
        ensures fault { OnErr result (HasFault (faults self.old) (faults self.new)) }
        ensures quiet { OnOk result (faults self.new ≡ faults self.old) }
        ensures succeeds { is_sound self.old → is_ok result ≡ true }
        ensures sound { is_sound self.old → is_sound self.new };

    /// Writes these bytes from place `at` on, and answers once they are kept. After `Failed` the bytes
    /// of that range may be any, and all others are as they were.
    fn write(&mut self, at: u8, from: &[u8]) -> Result<(), Failed>
        requires { at + length from.now ≤ 18 }
        ensures takes { OnOk result (TakesBytes (contents self.old) at from.now
            (contents self.new)) }
        ensures tears { OnErr result (TearsBytes (contents self.old) at (length from.now)
            (contents self.new)) }
        ensures later { faults self.old ≤ faults self.new }
        ensures fault { OnErr result (HasFault (faults self.old) (faults self.new)) }
        ensures quiet { OnOk result (faults self.new ≡ faults self.old) }
        ensures succeeds { is_sound self.old → is_ok result ≡ true }
        ensures sound { is_sound self.old → is_sound self.new };
}
