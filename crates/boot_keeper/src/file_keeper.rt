ghost use Rattle.std.specs.Prelude.{◌≡◌, ◌≤◌, ◌+◌, None, ⊤, true, is_ok, length, OnOk, OnErr};
ghost use Rattle.spdm_basis.specs.Memory.{one_more};
ghost use Rattle.spdm_basis.specs.Stream.{HasFault};
ghost use Rattle.boot_keeper.specs.Device.{GivesBytes, TakesBytes, TearsBytes, untold};

use crate::Keeper;
use crate::keeper::SIZE;
use spdm_basis::Failed;
use std::fs::{File, OpenFile, OpenOptions};
use std::io::{ErrorKind, Read, Seek, SeekFrom, Write};
use std::rt::Files;
use std::{fs, io};

// The file of the boot number.
const PATH: &str = "spdm.boot";

// Where a new one is made, before it gets its name.
const NEW_PATH: &str = "spdm.boot.new";

// The folder of both.
const FOLDER: &str = ".";

/// The file `spdm.boot` of 18 bytes, in the folder where the program runs. It is opened at the first
/// call; where there is none, one of zeros is made under another name, synced and renamed. A file of
/// any other length is a failure, and is never mended. A write answers once the file is synced.
///
/// Its contents are unknown to contracts. Its count of faults rises by one at each failed call, and
/// saturates at `u64::MAX`. Two programs that run at one time in one folder may get the same boot number.
#[derive(Drop)]
pub struct FileKeeper<'a, F: Files> {
    files: &'a F,
    file: Option<F::File>,
    faults: u64,
}

impl<'a, F: Files> FileKeeper<'a, F> {
    /// The keeper of the folder where the program runs. It has not failed yet.
    pub fn new(files: &'a F) -> Self
        ensures faults { result.faults ≡ 0 }
    {
        FileKeeper {
            files,
            file: None,
            faults: 0,
        }
    }
}

// Opens the file, which has to have its length.
fn open<F: Files>(files: &F) -> io::Result<F::File> {
    let file = OpenOptions::new().read(true).write(true).open(files, PATH)?;
    if file.metadata()?.len() == SIZE as u64 {
        Ok(file)
    } else {
        Err(ErrorKind::InvalidData.into())
    }
}

// Makes the file, of zeros. It has its name only once its bytes are kept.
fn make<F: Files>(files: &F) -> io::Result<()> {
    let mut file = File::create(files, NEW_PATH)?;
    file.write_all(&[0; SIZE])?;
    file.sync_all()?;
    fs::rename(files, NEW_PATH, PATH)
}

// Opens the file, and makes it where there is none. Its name is kept before it is used.
fn open_or_make<F: Files>(files: &F) -> io::Result<F::File> {
    let file = match open(files) {
        Err(error) if error.kind() == ErrorKind::NotFound => {
            make(files)?;
            open(files)?
        }
        opened => opened?,
    };
    fs::open(files, FOLDER)?.sync_all()?;
    Ok(file)
}

// The file, which is opened where it is not open yet.
fn opened<'f, F: Files>(files: &F, file: &'f mut Option<F::File>) -> io::Result<&'f mut F::File> {
    if file.is_none() {
        *file = Some(open_or_make(files)?);
    }
    file.as_mut().ok_or(ErrorKind::NotFound.into())
}

// Reads the bytes of the file from a place on.
fn read_at<F: Files>(
    files: &F,
    file: &mut Option<F::File>,
    at: u8,
    into: &mut [u8],
) -> io::Result<()> {
    let file = opened(files, file)?;
    file.seek(SeekFrom::Start(u64::from(at)))?;
    file.read_exact(into)
}

// Writes bytes into the file from a place on, and syncs it.
fn write_at<F: Files>(
    files: &F,
    file: &mut Option<F::File>,
    at: u8,
    from: &[u8],
) -> io::Result<()> {
    let file = opened(files, file)?;
    file.seek(SeekFrom::Start(u64::from(at)))?;
    file.write_all(from)?;
    file.sync_all()
}

impl<'a, F: Files> FileKeeper<'a, F> {
    // Counts a call that failed.
    fn count(&mut self, answer: io::Result<()>) -> Result<(), Failed>
        ensures later { self.old.faults ≤ self.new.faults }
        ensures fault { OnErr result (HasFault self.old.faults self.new.faults) }
        ensures counted { OnErr result (self.new.faults ≡ one_more self.old.faults) }
        ensures quiet { OnOk result (self.new.faults ≡ self.old.faults) }
    {
        match answer {
            Ok(()) => Ok(()),
            Err(_) => {
                self.faults = self.faults.saturating_add(1);
                Err(Failed)
            }
        }
    }
}

impl<'a, F: Files> Keeper for FileKeeper<'a, F> {
    ghost contents = { λ _. untold };

    ghost faults = { λ k. k.faults };

    ghost is_sound = { λ _. ⊥ };

    fn read(&mut self, at: u8, into: &mut [u8]) -> Result<(), Failed>
        requires { at + length into.old ≤ 18 }
        ensures gives { OnOk result (GivesBytes untold at into.new) }
        ensures same { untold ≡ untold }
        ensures later { self.old.faults ≤ self.new.faults }
        ensures fault { OnErr result (HasFault self.old.faults self.new.faults) }
        ensures quiet { OnOk result (self.new.faults ≡ self.old.faults) }
        ensures succeeds { ⊥ → is_ok result ≡ true }
        ensures sound { ⊥ → ⊥ }

        ensures counted { OnErr result (self.new.faults ≡ one_more self.old.faults) }
    {
        let answer = read_at(self.files, &mut self.file, at, into);
        self.count(answer)
    }

    fn write(&mut self, at: u8, from: &[u8]) -> Result<(), Failed>
        requires { at + length from.now ≤ 18 }
        ensures takes { OnOk result (TakesBytes untold at from.now untold) }
        ensures tears { OnErr result (TearsBytes untold at (length from.now) untold) }
        ensures later { self.old.faults ≤ self.new.faults }
        ensures fault { OnErr result (HasFault self.old.faults self.new.faults) }
        ensures quiet { OnOk result (self.new.faults ≡ self.old.faults) }
        ensures succeeds { ⊥ → is_ok result ≡ true }
        ensures sound { ⊥ → ⊥ }

        ensures counted { OnErr result (self.new.faults ≡ one_more self.old.faults) }
    {
        let answer = write_at(self.files, &mut self.file, at, from);
        self.count(answer)
    }
}
