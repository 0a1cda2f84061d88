ghost use Rattle.std.specs.Borrow.{sem};
ghost use Rattle.std.specs.Prelude.{◌≡◌, ◌<◌, ◌≤◌, ◌+◌, ◌++◌, [], length, OnOk, OnErr};
ghost use Rattle.spdm_basis.specs.Lending.{LendsAll};

use arrayvec::ArrayVec;
use std::marker::Model;
use thiserror::Error;

/// A byte buffer of capacity `N`, stored inline; never allocates. In contracts, a list.
#[derive(Clone, Debug, Drop)]
pub struct Buffer<const N: usize> {
    items: ArrayVec<u8, N>,
}

/// An SPDM message: up to 4,096 bytes.
pub type Frame = Buffer<4096>;

/// A secured record: up to 4,160 bytes.
pub type RecordFrame = Buffer<4160>;

/// A line of a trace: up to 8,400 bytes.
pub type Line = Buffer<8400>;

/// The bytes exceed the remaining capacity of a buffer.
#[derive(Clone, Copy, Debug, PartialEq, Eq, Error)]
#[error("the buffer is full")]
pub struct Full;

impl<const N: usize> Model for Buffer<N> {
    ghost use Rattle.std.specs.Prelude.{ℕ, List};

    ghost Value = { List ℕ };

    ghost view = { λ b. b.items.items };
}

impl<const N: usize> Buffer<N> {
    /// An empty buffer.
    pub fn new() -> Self
        ensures { result ≡ [] }
    {
        Buffer {
            items: ArrayVec::new(),
        }
    }

    /// The bytes.
    pub fn as_slice(&self) -> &[u8]
        ensures value { result.now ≡ self.now }
        ensures fits { length self.now ≤ N }
    {
        self.items.as_slice()
    }

    /// The bytes, mutably.
    pub fn as_mut_slice(&mut self) -> &mut [u8]
        ensures* writes_back { sem 𝓛 (LendsAll N.row self.entry result) }
        ensures value { result.now ≡ self.old }
        ensures fits { length result.now ≤ N }
    {
        self.items.as_mut_slice()
    }

    /// Removes all bytes.
    pub fn clear(&mut self)
        ensures { self.new ≡ [] }
    {
        self.items.clear();
    }

    /// Appends bytes. Returns `Full` exactly when they do not all fit, and changes nothing.
    pub fn extend(&mut self, more: &[u8]) -> Result<(), Full>
        ensures ok { OnOk result (self.new ≡ self.old ++ more.now) }
        ensures fits { OnOk result (length self.old + length more.now ≤ N) }
        ensures full { OnErr result (N < length self.old + length more.now) }
        ensures err { OnErr result (self.new ≡ self.old) }
    {
        self.items.try_extend_from_slice(more).map_err(|_| Full)
    }

    /// Overwrites the bytes. `Full` comes exactly when the new ones do not fit, and leaves none.
    pub fn replace(&mut self, bytes: &[u8]) -> Result<(), Full>
        ensures ok { OnOk result (self.new ≡ bytes.now) }
        ensures fits { OnOk result (length bytes.now ≤ N) }
        ensures full { OnErr result (N < length bytes.now) }
        ensures err { OnErr result (self.new ≡ []) }
    {
        self.clear();
        self.extend(bytes)
    }
}
