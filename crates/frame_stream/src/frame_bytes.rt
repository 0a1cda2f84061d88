ghost use Rattle.std.specs.Prelude.{◌≡◌, ◌<◌, ◌≤◌, ◌+◌, ◌++◌, [], length, drop, slice_index, IfOk};

use spdm_basis::OutOfMemory;
use std::alloc::Global;
use std::marker::Model;

/// The longest frame: its kind, its length and 65,535 bytes.
pub(crate) const LONGEST: usize = 65_538;

/// The bytes of a frame, allocated at construction. In contracts, a list.
#[derive(Drop)]
pub(crate) struct FrameBytes {
    bytes: Vec<u8>,
}

impl Model for FrameBytes {
    ghost use Rattle.std.specs.Prelude.{◌≤◌, ℕ, List, vec_capacity};

    ghost Value = { List ℕ };

    ghost view = { λ f. f.bytes.items };

    ghost invariant = { λ f. 65538 ≤ vec_capacity f.bytes };
}

impl FrameBytes {
    // No bytes, and memory for those of the longest frame.
    pub(crate) fn new(alloc: Global) -> Result<FrameBytes, OutOfMemory>
        ensures { IfOk result (λ frame. frame ≡ []) }
    {
        match Vec::with_capacity(alloc, LONGEST) {
            Ok(bytes) => Ok(FrameBytes { bytes }),
            Err(_) => Err(OutOfMemory),
        }
    }

    pub(crate) fn len(&self) -> usize
        ensures { result ≡ length self.now }
    {
        self.bytes.len()
    }

    pub(crate) fn at(&self, index: usize) -> u8
        requires { index < length self.now }
        ensures { result ≡ slice_index self.now index }
    {
        self.bytes[index]
    }

    // What follows the kind and the length.
    pub(crate) fn content(&self) -> &[u8]
        ensures { result.now ≡ drop 3 self.now }
    {
        let bytes = self.bytes.as_slice();
        if bytes.len() < 3 { &[] } else { &bytes[3..] }
    }

    pub(crate) fn clear(&mut self)
        ensures { self.new ≡ [] }
    {
        self.bytes.clear();
    }

    // Appends bytes. They fit.
    pub(crate) fn append(&mut self, more: &[u8])
        requires { length self.old + length more.now ≤ LONGEST }
        ensures { self.new ≡ self.old ++ more.now }
    {
        let _ = self.bytes.extend_from_slice(more);
    }
}
