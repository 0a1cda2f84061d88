ghost use Rattle.std.specs.Prelude.{◌≡◌, ◌≤◌, IfOk, OnOk, OnErr};
ghost use Rattle.spdm_basis.specs.Memory.{one_more};
ghost use Rattle.spdm_basis.specs.Stream.{GivesSeed, HasFault, untold};

use crate::{Failed, Seeds};
use std::io::Read;
use std::rt::Files;
use std::{fs, io};

// The random numbers of the system.
const RANDOM: &str = "/dev/urandom";

/// Seeds from the system: each is the first 32 bytes of `/dev/urandom`. It tells nothing of what it has left. Its fault
/// count rises by one at each seed that could not be read, and saturates at `u64::MAX`.
#[derive(Drop)]
pub struct FileSeeds<'a, F: Files> {
    files: &'a F,
    faults: u64,
}

// The first 32 bytes of the file of this path.
fn first_bytes<F: Files>(files: &F, path: &str) -> io::Result<[u8; 32]> {
    let mut seed = [0; 32];
    fs::open(files, path)?.read_exact(&mut seed)?;
    Ok(seed)
}

impl<'a, F: Files> FileSeeds<'a, F> {
    /// The seeds of a system, which have not failed yet.
    pub fn new(files: &'a F) -> Self
        ensures faults { result.faults ≡ 0 }
    {
        FileSeeds { files, faults: 0 }
    }
}

impl<'a, F: Files> Seeds for FileSeeds<'a, F> {
    ghost left = { λ _. untold };

    ghost faults = { λ s. s.faults };

    fn seed(&mut self) -> Result<[u8; 32], Failed>
        ensures gives { IfOk result (λ seed. GivesSeed untold seed untold) }
        ensures later { self.old.faults ≤ self.new.faults }
        ensures fault { OnErr result (HasFault self.old.faults self.new.faults) }
        ensures same { OnErr result (untold ≡ untold) }

        ensures counted { OnErr result (self.new.faults ≡ one_more self.old.faults) }
        ensures quiet { OnOk result (self.new.faults ≡ self.old.faults) }
    {
        match first_bytes(self.files, RANDOM) {
            Ok(seed) => Ok(seed),
            Err(_) => {
                self.faults = self.faults.saturating_add(1);
                Err(Failed)
            }
        }
    }
}
