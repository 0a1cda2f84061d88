ghost use Rattle.std.specs.Prelude.{◌≡◌, ◌≤◌, ◌<◌, ◌-◌, ◌++◌, ◌==◌, ◌||◌, ◌↔◌, min, [], Some, None, take, drop, length, IfOk, OnOk, OnErr, is_err, is_ok};
ghost use Rattle.spdm_basis.specs.Stream.{Gives, GivesSeed, IsAtEnd, HasFault, Takes};
ghost use Rattle.spdm_basis.specs.Memory.{fails_next, one_more};

use crate::{Failed, OutOfMemory, Seeds, Sink, Source};
use std::alloc::Global;
use std::marker::Model;

// The calls of a source, a sink or of seeds in memory, and which of them fail.
#[derive(Drop)]
struct CallLog {
    made: u64,
    failing: Vec<u64>,
    faults: u64,
}

impl Model for CallLog {
    ghost use Rattle.spdm_basis.specs.Memory.{Calls};

    ghost Value = { Calls };

    ghost view = { λ c. record { made = c.made; failing = c.failing.items; faults = c.faults } };
}

impl CallLog {
    fn new(alloc: Global, failing: &[u64]) -> Result<CallLog, OutOfMemory>
        ensures made { IfOk result (λ calls. calls.made ≡ 0) }
        ensures failing { IfOk result (λ calls. calls.failing ≡ failing.now) }
        ensures faults { IfOk result (λ calls. calls.faults ≡ 0) }
    {
        let failing = Vec::from_slice(alloc, failing).map_err(|_| OutOfMemory)?;
        Ok(CallLog {
            made: 0,
            failing,
            faults: 0,
        })
    }

    // Counts a call, and fails where it is one of those that are to fail or cannot be served.
    fn next(&mut self, is_full: bool) -> Result<(), Failed>
        ensures fails { is_err result ≡ (fails_next self.old || is_full) }
        ensures made { self.new.made ≡ one_more self.old.made }
        ensures failing { self.new.failing ≡ self.old.failing }
        ensures later { self.old.faults ≤ self.new.faults }
        ensures fault { OnErr result (HasFault self.old.faults self.new.faults) }
        ensures counted { OnErr result (self.new.faults ≡ one_more self.old.faults) }
        ensures quiet { OnOk result (self.new.faults ≡ self.old.faults) }
    {
        let call = self.made;
        self.made = call.saturating_add(1);
        if self.failing.contains(&call) || is_full {
            self.faults = self.faults.saturating_add(1);
            return Err(Failed);
        }
        Ok(())
    }
}

/// A source of bytes in memory, some of whose calls are made to fail.
#[derive(Drop)]
pub struct MemSource {
    bytes: Vec<u8>,
    at: usize,
    calls: CallLog,
}

impl Model for MemSource {
    ghost use Rattle.std.specs.Prelude.{◌≤◌, drop, length};
    ghost use Rattle.spdm_basis.specs.Memory.{Remaining};

    ghost Value = { Remaining };

    ghost view = { λ s. record { left = drop s.at s.bytes.items; calls = s.calls } };

    ghost invariant = { λ s. s.at ≤ length s.bytes.items };
}

impl MemSource {
    /// A source of these bytes. The calls of `read` with the numbers of `failing` fail, counted from 0,
    /// and no others.
    pub fn new(alloc: Global, bytes: &[u8], failing: &[u64]) -> Result<MemSource, OutOfMemory>
        ensures left { IfOk result (λ source. source.left ≡ bytes.now) }
        ensures made { IfOk result (λ source. source.calls.made ≡ 0) }
        ensures failing { IfOk result (λ source. source.calls.failing ≡ failing.now) }
        ensures faults { IfOk result (λ source. source.calls.faults ≡ 0) }
    {
        let calls = CallLog::new(alloc, failing)?;
        let bytes = Vec::from_slice(alloc, bytes).map_err(|_| OutOfMemory)?;
        Ok(MemSource {
            bytes,
            at: 0,
            calls,
        })
    }
}

impl Source for MemSource {
    ghost remaining = { λ s. Some s.left };

    ghost faults = { λ s. s.calls.faults };

    fn read(&mut self, into: &mut [u8]) -> Result<usize, Failed>
        requires { 0 < length into.old }
        ensures count { IfOk result (λ n. n ≡ min (length self.old.left) (length into.old)) }
        ensures gives { IfOk result (λ n. Gives (Some self.old.left) (take n into.new)
            (Some self.new.left)) }
        ensures end { IfOk result (λ n. n ≡ 0 → IsAtEnd (Some self.old.left)) }
        ensures later { self.old.calls.faults ≤ self.new.calls.faults }
        ensures fault { OnErr result (HasFault self.old.calls.faults self.new.calls.faults) }
        ensures same { OnErr result (self.new.left ≡ self.old.left) }

        ensures fails { is_err result ≡ fails_next self.old.calls }
        ensures made { self.new.calls.made ≡ one_more self.old.calls.made }
        ensures failing { self.new.calls.failing ≡ self.old.calls.failing }
        ensures counted { OnErr result (self.new.calls.faults ≡ one_more self.old.calls.faults) }
        ensures quiet { OnOk result (self.new.calls.faults ≡ self.old.calls.faults) }
    {
        self.calls.next(false)?;
        let left = &self.bytes[self.at..];
        let count = left.len().min(into.len());
        into[..count].copy_from_slice(&left[..count]);
        self.at += count;
        Ok(count)
    }
}

/// A sink in memory, some of whose calls are made to fail.
#[derive(Drop)]
pub struct MemSink {
    bytes: Vec<u8>,
    limit: usize,
    calls: CallLog,
}

impl Model for MemSink {
    ghost use Rattle.std.specs.Prelude.{◌≤◌, length, vec_capacity};
    ghost use Rattle.spdm_basis.specs.Memory.{Contents};

    ghost Value = { Contents };

    ghost view = { λ s. record { held = s.bytes.items; limit = s.limit; calls = s.calls } };

    ghost invariant = { λ s. (length s.bytes.items ≤ s.limit) × (s.limit ≤ vec_capacity s.bytes) };
}

impl MemSink {
    /// An empty sink that holds up to `limit` bytes, allocated here. The calls of `write` with the numbers of `failing`
    /// fail, counted from 0, and so does each call where it is full.
    pub fn new(alloc: Global, limit: usize, failing: &[u64]) -> Result<MemSink, OutOfMemory>
        ensures held { IfOk result (λ sink. sink.held ≡ []) }
        ensures limit { IfOk result (λ sink. sink.limit ≡ limit) }
        ensures made { IfOk result (λ sink. sink.calls.made ≡ 0) }
        ensures failing { IfOk result (λ sink. sink.calls.failing ≡ failing.now) }
        ensures faults { IfOk result (λ sink. sink.calls.faults ≡ 0) }
    {
        let calls = CallLog::new(alloc, failing)?;
        let bytes = Vec::with_capacity(alloc, limit).map_err(|_| OutOfMemory)?;
        Ok(MemSink {
            bytes,
            limit,
            calls,
        })
    }

    /// The bytes that it holds.
    pub fn as_slice(&self) -> &[u8]
        ensures { result.now ≡ self.now.held }
    {
        self.bytes.as_slice()
    }
}

impl Sink for MemSink {
    ghost contents = { λ s. Some s.held };

    ghost faults = { λ s. s.calls.faults };

    fn write(&mut self, from: &[u8]) -> Result<usize, Failed>
        requires { 0 < length from.now }
        ensures some { IfOk result (λ n. 0 < n) }
        ensures count { IfOk result (λ n. n
            ≡ min (length from.now) (self.old.limit - length self.old.held)) }
        ensures takes { IfOk result (λ n. Takes (Some self.old.held) (take n from.now)
            (Some self.new.held)) }
        ensures later { self.old.calls.faults ≤ self.new.calls.faults }
        ensures fault { OnErr result (HasFault self.old.calls.faults self.new.calls.faults) }
        ensures same { OnErr result (self.new.held ≡ self.old.held) }

        ensures fails { is_err result ≡
            (fails_next self.old.calls || length self.old.held == self.old.limit) }
        ensures made { self.new.calls.made ≡ one_more self.old.calls.made }
        ensures failing { self.new.calls.failing ≡ self.old.calls.failing }
        ensures counted { OnErr result (self.new.calls.faults ≡ one_more self.old.calls.faults) }
        ensures quiet { OnOk result (self.new.calls.faults ≡ self.old.calls.faults) }
        ensures limit { self.new.limit ≡ self.old.limit }
    {
        let is_full = self.bytes.len() == self.limit;
        self.calls.next(is_full)?;
        let count = from.len().min(self.limit - self.bytes.len());
        self.bytes.extend_from_slice(&from[..count]).unwrap();
        Ok(count)
    }
}

/// A sink that takes all that it is given and keeps nothing. It never fails.
#[derive(Clone, Copy, Debug, PartialEq, Eq)]
pub struct NullSink;

impl Sink for NullSink {
    ghost contents = { λ _. None };

    ghost faults = { λ _. 0 };

    fn write(&mut self, from: &[u8]) -> Result<usize, Failed>
        ensures whole { result ≡ Ok (length from.now) }
    {
        Ok(from.len())
    }
}

/// Seeds in memory, in order; some calls are made to fail.
#[derive(Drop)]
pub struct MemSeeds {
    seeds: Vec<[u8; 32]>,
    at: usize,
    calls: CallLog,
}

impl Model for MemSeeds {
    ghost use Rattle.std.specs.Prelude.{◌≤◌, drop, length};
    ghost use Rattle.spdm_basis.specs.Memory.{SeedsLeft};

    ghost Value = { SeedsLeft };

    ghost view = { λ s. record { left = drop s.at s.seeds.items; calls = s.calls } };

    ghost invariant = { λ s. s.at ≤ length s.seeds.items };
}

impl MemSeeds {
    /// These seeds. The calls of `seed` with the numbers of `failing` fail, counted from 0, and so does each call when
    /// no seed is left.
    pub fn new(alloc: Global, seeds: &[[u8; 32]], failing: &[u64]) -> Result<MemSeeds, OutOfMemory>
        ensures left { IfOk result (λ kept. kept.left ≡ seeds.now) }
        ensures made { IfOk result (λ kept. kept.calls.made ≡ 0) }
        ensures failing { IfOk result (λ kept. kept.calls.failing ≡ failing.now) }
        ensures faults { IfOk result (λ kept. kept.calls.faults ≡ 0) }
    {
        let calls = CallLog::new(alloc, failing)?;
        let seeds = Vec::from_slice(alloc, seeds).map_err(|_| OutOfMemory)?;
        Ok(MemSeeds {
            seeds,
            at: 0,
            calls,
        })
    }
}

impl Seeds for MemSeeds {
    ghost left = { λ s. Some s.left };

    ghost faults = { λ s. s.calls.faults };

    fn seed(&mut self) -> Result<[u8; 32], Failed>
        ensures gives { IfOk result (λ seed. GivesSeed (Some self.old.left) seed
            (Some self.new.left)) }
        ensures later { self.old.calls.faults ≤ self.new.calls.faults }
        ensures fault { OnErr result (HasFault self.old.calls.faults self.new.calls.faults) }
        ensures same { OnErr result (self.new.left ≡ self.old.left) }

        ensures fails { is_err result ≡ (fails_next self.old.calls || length self.old.left == 0) }
        ensures made { self.new.calls.made ≡ one_more self.old.calls.made }
        ensures failing { self.new.calls.failing ≡ self.old.calls.failing }
        ensures counted { OnErr result (self.new.calls.faults ≡ one_more self.old.calls.faults) }
        ensures quiet { OnOk result (self.new.calls.faults ≡ self.old.calls.faults) }
    {
        self.calls.next(self.at == self.seeds.len())?;
        let seed = self.seeds[self.at];
        self.at += 1;
        Ok(seed)
    }
}
