ghost use Rattle.std.specs.Prelude.{◌≡◌, ◌≤◌, ◌+◌, ◌/◌, [], Some, true, false, is_ok, is_err, length, take, replicate, IfOk, OnOk, OnErr};
ghost use Rattle.spdm_basis.specs.Stream.{HasFault};
ghost use Rattle.spdm_basis.specs.Memory.{fails_next, one_more};
ghost use Rattle.boot_keeper.specs.Device.{GivesBytes, TakesBytes, TearsBytes, written};

use crate::Keeper;
use crate::keeper::{Device, SIZE};
use spdm_basis::{Failed, OutOfMemory};
use std::alloc::Global;
use std::marker::Model;

/// A device in memory, of which chosen calls fail.
#[derive(Drop)]
pub struct MemKeeper {
    bytes: Device,
    made: u64,
    failing: Vec<u64>,
    faults: u64,
}

impl Model for MemKeeper {
    ghost use Rattle.boot_keeper.specs.Memory.{Held};

    ghost Value = { Held };

    ghost view = { λ k. record {
      held = k.bytes;
      calls = record { made = k.made; failing = k.failing.items; faults = k.faults };
    } };
}

impl MemKeeper {
    /// A device of zeros. The calls of `read` and `write` with the numbers of `failing` fail, counted
    /// together from 0, and no others.
    pub fn new(alloc: Global, failing: &[u64]) -> Result<MemKeeper, OutOfMemory>
        ensures held { IfOk result (λ keeper. keeper.held ≡ replicate 18 0) }
        ensures made { IfOk result (λ keeper. keeper.calls.made ≡ 0) }
        ensures failing { IfOk result (λ keeper. keeper.calls.failing ≡ failing.now) }
        ensures faults { IfOk result (λ keeper. keeper.calls.faults ≡ 0) }
    {
        let failing = Vec::from_slice(alloc, failing).map_err(|_| OutOfMemory)?;
        Ok(MemKeeper {
            bytes: [0; SIZE],
            made: 0,
            failing,
            faults: 0,
        })
    }

    // Counts a call, and says whether it is one of those that fail.
    fn fails(&mut self) -> bool
        ensures value { result ≡ fails_next self.old.calls }
        ensures held { self.new.held ≡ self.old.held }
        ensures made { self.new.calls.made ≡ one_more self.old.calls.made }
        ensures failing { self.new.calls.failing ≡ self.old.calls.failing }
        ensures later { self.old.calls.faults ≤ self.new.calls.faults }
        ensures fault { result ≡ true → HasFault self.old.calls.faults self.new.calls.faults }
        ensures counted { result ≡ true → self.new.calls.faults ≡ one_more self.old.calls.faults }
        ensures quiet { result ≡ false → self.new.calls.faults ≡ self.old.calls.faults }
    {
        let call = self.made;
        self.made = call.saturating_add(1);
        let fails = self.failing.contains(&call);
        if fails {
            self.faults = self.faults.saturating_add(1);
        }
        fails
    }
}

impl MemKeeper {
    // Has the device hold these bytes from a place on.
    fn put(&mut self, at: u8, bytes: &[u8])
        requires { at + length bytes.now ≤ 18 }
        ensures size { length self.old.held ≡ 18 }
        ensures held { self.new.held ≡ written at bytes.now self.old.held }
        ensures calls { self.new.calls ≡ self.old.calls }
    {
        let at = usize::from(at);
        self.bytes[at..at + bytes.len()].copy_from_slice(bytes);
    }
}

impl Keeper for MemKeeper {
    ghost contents = { λ k. Some k.held };

    ghost faults = { λ k. k.calls.faults };

    ghost is_sound = { λ k. k.calls.failing ≡ [] };

    fn read(&mut self, at: u8, into: &mut [u8]) -> Result<(), Failed>
        requires { at + length into.old ≤ 18 }
        ensures gives { OnOk result (GivesBytes (Some self.old.held) at into.new) }
        ensures same { Some self.new.held ≡ Some self.old.held }
        ensures later { self.old.calls.faults ≤ self.new.calls.faults }
        ensures fault { OnErr result (HasFault self.old.calls.faults self.new.calls.faults) }
        ensures quiet { OnOk result (self.new.calls.faults ≡ self.old.calls.faults) }
        ensures succeeds { self.old.calls.failing ≡ [] → is_ok result ≡ true }
        ensures sound { self.old.calls.failing ≡ [] → self.new.calls.failing ≡ [] }

        ensures fails { is_err result ≡ fails_next self.old.calls }
        ensures made { self.new.calls.made ≡ one_more self.old.calls.made }
        ensures failing { self.new.calls.failing ≡ self.old.calls.failing }
        ensures counted { OnErr result (self.new.calls.faults ≡ one_more self.old.calls.faults) }
    {
        if self.fails() {
            return Err(Failed);
        }
        let at = usize::from(at);
        into.copy_from_slice(&self.bytes[at..at + into.len()]);
        Ok(())
    }

    // A call that fails writes the first half of its bytes, rounded up.
    fn write(&mut self, at: u8, from: &[u8]) -> Result<(), Failed>
        requires { at + length from.now ≤ 18 }
        ensures takes { OnOk result (TakesBytes (Some self.old.held) at from.now
            (Some self.new.held)) }
        ensures tears { OnErr result (TearsBytes (Some self.old.held) at (length from.now)
            (Some self.new.held)) }
        ensures later { self.old.calls.faults ≤ self.new.calls.faults }
        ensures fault { OnErr result (HasFault self.old.calls.faults self.new.calls.faults) }
        ensures quiet { OnOk result (self.new.calls.faults ≡ self.old.calls.faults) }
        ensures succeeds { self.old.calls.failing ≡ [] → is_ok result ≡ true }
        ensures sound { self.old.calls.failing ≡ [] → self.new.calls.failing ≡ [] }

        ensures half { OnErr result (self.new.held
            ≡ written at (take ((length from.now + 1) / 2) from.now) self.old.held) }
        ensures fails { is_err result ≡ fails_next self.old.calls }
        ensures made { self.new.calls.made ≡ one_more self.old.calls.made }
        ensures failing { self.new.calls.failing ≡ self.old.calls.failing }
        ensures counted { OnErr result (self.new.calls.faults ≡ one_more self.old.calls.faults) }
    {
        if self.fails() {
            self.put(at, &from[..from.len().div_ceil(2)]);
            return Err(Failed);
        }
        self.put(at, from);
        Ok(())
    }
}
