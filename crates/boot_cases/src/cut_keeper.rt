ghost use Rattle.std.specs.Prelude.{◌≡◌, ◌+◌, ◌≤◌, length, OnOk, OnErr};
ghost use Rattle.spdm_basis.specs.Stream.{HasFault};
ghost use Rattle.boot_keeper.specs.Device.{untold};

use boot_keeper::Keeper;
use spdm_basis::Failed;

/// A call that fails, counted from 0, and how many bytes a write keeps of its own before it does: the
/// first half of them, rounded up, where that is left open.
#[derive(Clone, Copy)]
pub struct Cut {
    pub call: u64,
    pub bytes: Option<usize>,
}

/// A device of which chosen calls fail, each write behind as many bytes as is asked for.
#[derive(Drop)]
pub struct CutKeeper {
    pub device: [u8; 18],
    cuts: Vec<Cut>,
    made: u64,
    faults: u64,
}

impl CutKeeper {
    pub fn new(device: [u8; 18], cuts: Vec<Cut>) -> CutKeeper {
        CutKeeper {
            device,
            cuts,
            made: 0,
            faults: 0,
        }
    }

    // Counts a call, and gives the cut that there is in it.
    fn next(&mut self) -> Option<Cut>
        ensures { self.new.faults ≡ self.old.faults }
    {
        let call = self.made;
        self.made = call.wrapping_add(1);
        self.cuts.iter().find(|cut| cut.call == call).copied()
    }

    // Counts a failure.
    fn fail(&mut self) -> Result<(), Failed>
        ensures never { OnOk result (self.new.faults ≡ self.old.faults) }
        ensures later { self.old.faults ≤ self.new.faults }
        ensures fault { HasFault self.old.faults self.new.faults }
    {
        self.faults = self.faults.saturating_add(1);
        Err(Failed)
    }

    fn put(&mut self, at: u8, from: &[u8])
        requires { at + length from.now ≤ 18 }
        ensures { self.new.faults ≡ self.old.faults }
    {
        let at = usize::from(at);
        self.device[at..at + from.len()].copy_from_slice(from);
    }
}

impl Keeper for CutKeeper {
    ghost contents = { λ _. untold };

    ghost faults = { λ k. k.faults };

    ghost is_sound = { λ _. ⊥ };

    fn read(&mut self, at: u8, into: &mut [u8]) -> Result<(), Failed> {
        if self.next().is_some() {
            return self.fail();
        }
        let at = usize::from(at);
        into.copy_from_slice(&self.device[at..at + into.len()]);
        Ok(())
    }

    fn write(&mut self, at: u8, from: &[u8]) -> Result<(), Failed> {
        match self.next() {
            Some(cut) => {
                let count = cut.bytes.unwrap_or(from.len().div_ceil(2));
                self.put(at, &from[..count.min(from.len())]);
                self.fail()
            }
            None => {
                self.put(at, from);
                Ok(())
            }
        }
    }
}
