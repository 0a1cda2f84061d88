ghost use Rattle.std.specs.Prelude.{◌≡◌, ◌≤◌, ◌+◌, ◌++◌, [], length, IfOk};
ghost use Rattle.mctp_framing.specs.Held.{Held};

use spdm_basis::OutOfMemory;
use std::alloc::Global;
use std::marker::Model;

/// A body in assembly: up to `limit` bytes, allocated at construction.
#[derive(Drop)]
pub(crate) struct BodyBuffer {
    limit: usize,
    bytes: Vec<u8>,
}

impl Model for BodyBuffer {
    ghost use Rattle.std.specs.Prelude.{◌≤◌, length, vec_capacity};
    ghost use Rattle.mctp_framing.specs.Held.{Held};

    ghost Value = { Held };

    ghost view = { λ b. record { limit = b.limit; bytes = b.bytes.items } };

    ghost invariant = { λ b. (length b.bytes.items ≤ b.limit) × (b.limit ≤ vec_capacity b.bytes) };
}

impl BodyBuffer {
    // An empty buffer, with all its memory allocated.
    pub(crate) fn new(alloc: Global, limit: usize) -> Result<BodyBuffer, OutOfMemory>
        ensures { IfOk result (λ buffer. buffer ≡ record { limit = limit; bytes = [] }) }
    {
        match Vec::with_capacity(alloc, limit) {
            Ok(bytes) => Ok(BodyBuffer { limit, bytes }),
            Err(_) => Err(OutOfMemory),
        }
    }

    pub(crate) fn limit(&self) -> usize
        ensures { result ≡ self.now.limit }
    {
        self.limit
    }

    pub(crate) fn as_slice(&self) -> &[u8]
        ensures value { result.now ≡ self.now.bytes }
        ensures fits { length self.now.bytes ≤ self.now.limit }
    {
        // A field that is read brings in the bound that every buffer keeps.
        let _ = self.limit;
        self.bytes.as_slice()
    }

    pub(crate) fn clear(&mut self)
        ensures { self.new ≡ record self.old { bytes = [] } }
    {
        self.bytes.clear();
    }

    // Appends bytes. They fit.
    pub(crate) fn append(&mut self, more: &[u8])
        requires { length self.old.bytes + length more.now ≤ self.old.limit }
        ensures { self.new ≡ record self.old { bytes = self.old.bytes ++ more.now } }
    {
        let _ = self.bytes.extend_from_slice(more);
    }
}
