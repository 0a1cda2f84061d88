ghost use Rattle.std.specs.Prelude.{◌≡◌, ◌<◌, ◌≤◌, [], true, false, length, take, drop, IfOk, OnErr, ◌↔◌, IsTrue};
ghost use Rattle.spdm_basis.specs.Stream.{Gives, HasFault, IsAtEnd};

use spdm_basis::{Failed, OutOfMemory, Source};
use std::alloc::Global;
use std::marker::Model;

// How many bytes are asked for at least.
const PIECE: usize = 4096;

/// Bytes of a stream that were read ahead. In contracts, a list.
#[derive(Drop)]
pub(crate) struct Ahead {
    bytes: Vec<u8>,
    at: usize,
    end: usize,
}

impl Model for Ahead {
    ghost use Rattle.std.specs.Prelude.{◌≤◌, ◌<◌, ℕ, List, length, take, drop};

    ghost Value = { List ℕ };

    ghost view = { λ a. drop a.at (take a.end a.bytes.items) };

    ghost invariant = { λ a. (a.at ≤ a.end) × (a.end ≤ length a.bytes.items)
        × (0 < length a.bytes.items) };
}

impl Ahead {
    // These bytes. It takes the memory for each later piece.
    pub(crate) fn new(alloc: Global, before: &[u8]) -> Result<Ahead, OutOfMemory>
        ensures { IfOk result (λ ahead. ahead ≡ before.now) }
    {
        let Ok(mut bytes) = Vec::from_slice(alloc, before) else {
            return Err(OutOfMemory);
        };
        if bytes.extend_from_slice(&[0; PIECE]).is_err() {
            return Err(OutOfMemory);
        }
        Ok(Ahead {
            bytes,
            at: 0,
            end: before.len(),
        })
    }

    pub(crate) fn is_empty(&self) -> bool
        ensures { IsTrue result ↔ (self.now ≡ []) }
    {
        self.at == self.end
    }

    // The first bytes, at most so many.
    pub(crate) fn front(&self, most: usize) -> &[u8]
        ensures { result.now ≡ take most self.now }
    {
        let count = most.min(self.end - self.at);
        &self.bytes[self.at..self.at + count]
    }

    // Takes the first bytes out.
    pub(crate) fn pass(&mut self, count: usize)
        requires { count ≤ length self.old }
        ensures { self.new ≡ drop count self.old }
    {
        self.at += count;
    }

    // Reads the next piece, where no bytes are left. Returns whether there were any.
    pub(crate) fn refill<S: Source>(&mut self, source: &mut S) -> Result<bool, Failed>
        requires { self.old ≡ [] }
        ensures gives { IfOk result (λ _. Gives (S.remaining source.old) self.new
            (S.remaining source.new)) }
        ensures some { IfOk result (λ some. some ≡ true → 0 < length self.new) }
        ensures end { IfOk result (λ some. some ≡ false → IsAtEnd (S.remaining source.old)) }
        ensures none { IfOk result (λ some. some ≡ false → self.new ≡ []) }
        ensures later { S.faults source.old ≤ S.faults source.new }
        ensures fault { OnErr result (HasFault (S.faults source.old) (S.faults source.new)) }
        ensures kept { OnErr result (self.new ≡ self.old) }
        ensures same { OnErr result (S.remaining source.new ≡ S.remaining source.old) }
    {
        let count = source.read(self.bytes.as_mut_slice())?;
        self.at = 0;
        self.end = count;
        Ok(count > 0)
    }
}
