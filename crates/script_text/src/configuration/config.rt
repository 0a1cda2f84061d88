ghost use Rattle.std.specs.Prelude.{◌≡◌, ◌≤◌, ◌<◌, ◌+◌, [], ◌∷◌, ◌++◌, length, OnOk, OnErr};
ghost use Rattle.script_text.specs.Measured.{block_size, sizes_of};

use spdm_basis::{Bytes, Eid, OutOfMemory, Psk};
use spdm_grammar::{BlockSpec, FlagSet, Suites};
use std::alloc::Global;
use std::marker::Model;

/// The responder of a script.
#[derive(Debug, Drop)]
pub struct RspPart {
    pub eid: Eid,
    /// DataTransferSize.
    pub transfer: u32,
    /// MaxSPDMmsgSize.
    pub max: u32,
    /// The payload of its packets in bytes.
    pub unit: u16,
    /// The heartbeat period in seconds.
    pub beat: u8,
    pub flags: FlagSet,
    pub opaque: Bytes,
    pub suites: Suites,
}

/// A requester of a script.
#[derive(Drop)]
pub struct ReqPart {
    pub eid: Eid,
    /// DataTransferSize.
    pub transfer: u32,
    /// MaxSPDMmsgSize.
    pub max: u32,
    /// The payload of its packets in bytes.
    pub unit: u16,
    /// How many bytes of padding its records have.
    pub pad: u8,
    pub flags: FlagSet,
    pub hint: Bytes,
    pub psk: Psk,
    pub opaque: Bytes,
    pub suites: Suites,
}

/// What the lines up to `end` say.
#[derive(Drop)]
pub struct ScriptConfig {
    pub seed: Option<[u8; 32]>,
    pub responder: RspPart,
    pub blocks: Blocks,
    pub requesters: ReqParts,
}

/// How many bytes of a measurement record precede the value of a block.
pub const BLOCK_HEADER: usize = 7;

/// The greatest size of a measurement record that a script's blocks may take.
pub const RECORD_LIMIT: usize = 4_054;

/// The measurements of a script, in the order of their lines: of 4,054 bytes at most together. In contracts, a list.
#[derive(Debug, Drop)]
pub struct Blocks {
    items: Vec<BlockSpec>,
    size: usize,
}

impl Model for Blocks {
    ghost use Rattle.std.specs.Prelude.{◌≡◌, ◌≤◌, List};
    ghost use Rattle.spdm_grammar.specs.declared.told.block_spec.BlockSpec.{BlockSpec};
    ghost use Rattle.script_text.specs.Measured.{sizes_of};

    ghost Value = { List BlockSpec };

    ghost view = { λ b. b.items.items };

    ghost invariant = { λ b. (b.size ≡ sizes_of b.items.items) × (b.size ≤ 4054) };
}

impl Blocks {
    /// No measurements.
    pub fn new(alloc: Global) -> Self
        ensures { result ≡ [] }
    {
        Blocks {
            items: Vec::new(alloc),
            size: 0,
        }
    }

    /// How many bytes of a record they take.
    pub fn size(&self) -> usize
        ensures value { result ≡ sizes_of self.now }
        ensures few { result ≤ RECORD_LIMIT }
    {
        self.size
    }

    /// Appends a measurement. An `Err` changes nothing.
    pub fn push(&mut self, block: BlockSpec) -> Result<(), OutOfMemory>
        requires { sizes_of self.old + block_size block ≤ RECORD_LIMIT }
        ensures ok { OnOk result (self.new ≡ self.old ++ block ∷ []) }
        ensures err { OnErr result (self.new ≡ self.old) }
    {
        let size = self.size + BLOCK_HEADER + block.value.as_slice().len();
        self.items.push(block).map_err(|_| OutOfMemory)?;
        self.size = size;
        Ok(())
    }

    /// The measurements.
    pub fn as_slice(&self) -> &[BlockSpec]
        ensures { result.now ≡ self.now }
    {
        self.items.as_slice()
    }
}

/// The requesters of a script, in the order of their lines. In contracts, a list.
#[derive(Drop)]
pub struct ReqParts {
    items: Vec<ReqPart>,
}

impl Model for ReqParts {
    ghost use Rattle.std.specs.Prelude.{List};
    ghost use Rattle.script_text.specs.declared.configuration.config.ReqPart.{ReqPart};

    ghost Value = { List ReqPart };

    ghost view = { λ r. r.items.items };
}

impl ReqParts {
    ghost use Rattle.std.specs.Prelude.{◌≡◌, ◌<◌, [], ◌∷◌, ◌++◌, length, OnOk, OnErr};
    ghost use Rattle.script_text.specs.Configuring.{with_suites};

    /// No requesters.
    pub fn new(alloc: Global) -> Self
        ensures { result ≡ [] }
    {
        ReqParts {
            items: Vec::new(alloc),
        }
    }

    /// Appends a requester. An `Err` changes nothing.
    pub fn push(&mut self, requester: ReqPart) -> Result<(), OutOfMemory>
        ensures ok { OnOk result (self.new ≡ self.old ++ requester ∷ []) }
        ensures err { OnErr result (self.new ≡ self.old) }
    {
        self.items.push(requester).map_err(|_| OutOfMemory)
    }

    /// Gives a requester, counted from 0, these algorithms.
    pub fn set_suites(&mut self, index: usize, suites: Suites)
        requires { index < length self.old }
        ensures { self.new ≡ with_suites index suites self.old }
    {
        let requester = &mut self.items[index];
        requester.suites = suites;
    }

    /// The requesters.
    pub fn as_slice(&self) -> &[ReqPart]
        ensures { result.now ≡ self.now }
    {
        self.items.as_slice()
    }
}
