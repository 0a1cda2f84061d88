ghost use Rattle.std.specs.Prelude.{◌≡◌, ◌≤◌, ◌+◌, Some, true, is_ok, length, OnErr, OnOk};
ghost use Rattle.boot_keeper.specs.Device.{GivesBytes, TakesBytes, TearsBytes, written};
ghost use Rattle.spdm_basis.specs.Stream.{HasFault};

use boot_keeper::Keeper;
use spdm_basis::Failed;
use std::marker::Model;

/// A device in memory, of which no call fails.
#[derive(Drop)]
pub struct BytesKeeper {
    bytes: [u8; 18],
}

impl Model for BytesKeeper {
    ghost use Rattle.std.specs.Prelude.{List, ℕ};

    ghost Value = { List ℕ };

    ghost view = { λ k. k.bytes };
}

impl BytesKeeper {
    /// A device of these bytes.
    pub fn new(bytes: &[u8; 18]) -> BytesKeeper
        ensures { result ≡ bytes.now }
    {
        BytesKeeper { bytes: *bytes }
    }

    /// Its bytes.
    pub fn bytes(&self) -> [u8; 18]
        ensures { result ≡ self.now }
    {
        self.bytes
    }

    // Has the device hold these bytes from a place on.
    fn put(&mut self, at: u8, bytes: &[u8])
        requires { at + length bytes.now ≤ 18 }
        ensures { self.new ≡ written at bytes.now self.old }
    {
        let at = usize::from(at);
        self.bytes[at..at + bytes.len()].copy_from_slice(bytes);
    }
}

impl Keeper for BytesKeeper {
    ghost contents = { λ k. Some k };

    ghost faults = { λ k. 0 };

    ghost is_sound = { λ k. Unit {0} };

    fn read(&mut self, at: u8, into: &mut [u8]) -> Result<(), Failed> {
        let at = usize::from(at);
        into.copy_from_slice(&self.bytes[at..at + into.len()]);
        Ok(())
    }

    fn write(&mut self, at: u8, from: &[u8]) -> Result<(), Failed> {
        self.put(at, from);
        Ok(())
    }
}
