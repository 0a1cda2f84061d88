ghost use Rattle.std.specs.Prelude.{◌≡◌, ◌++◌, [], IfOk, OnOk, OnErr};

use std::alloc::Global;
use std::marker::Model;
use thiserror::Error;

/// Out of memory.
#[derive(Clone, Copy, Debug, PartialEq, Eq, Error)]
#[error("out of memory")]
pub struct OutOfMemory;

/// A growable, allocated list of bytes.
#[derive(Debug, Drop)]
pub struct Bytes {
    items: Vec<u8>,
}

impl Model for Bytes {
    ghost use Rattle.std.specs.Prelude.{ℕ, List};

    ghost Value = { List ℕ };

    ghost view = { λ b. b.items.items };
}

impl Bytes {
    /// No bytes. Never allocates (read, not proved).
    pub fn new(alloc: Global) -> Self
        ensures { result ≡ [] }
    {
        Bytes {
            items: Vec::new(alloc),
        }
    }

    /// A copy of these bytes.
    pub fn copy(alloc: Global, from: &[u8]) -> Result<Bytes, OutOfMemory>
        ensures { IfOk result (λ bytes. bytes ≡ from.now) }
    {
        match Vec::from_slice(alloc, from) {
            Ok(items) => Ok(Bytes { items }),
            Err(_) => Err(OutOfMemory),
        }
    }

    /// The bytes.
    pub fn as_slice(&self) -> &[u8]
        ensures { result.now ≡ self.now }
    {
        self.items.as_slice()
    }

    /// Removes all bytes and keeps the capacity.
    pub fn clear(&mut self)
        ensures { self.new ≡ [] }
    {
        self.items.clear();
    }

    /// Appends bytes. An `Err` changes nothing.
    pub fn extend(&mut self, more: &[u8]) -> Result<(), OutOfMemory>
        ensures ok { OnOk result (self.new ≡ self.old ++ more.now) }
        ensures err { OnErr result (self.new ≡ self.old) }
    {
        self.items.extend_from_slice(more).map_err(|_| OutOfMemory)
    }
}
