use crate::configuration::config::{Blocks, ReqParts, RspPart, ScriptConfig};
use spdm_basis::{Bytes, Eid};
use spdm_grammar::{FlagSet, Pick, Suites};
use std::alloc::Global;

/// The algorithms of an end without a line of its own.
pub const SMALL_SUITES: Suites = Suites {
    hash: Pick::Small,
    aead: Pick::Small,
};

/// What the line of the responder says.
#[derive(Clone, Copy, Debug, PartialEq, Eq)]
pub struct RspLine {
    pub eid: Eid,
    pub transfer: u32,
    pub max: u32,
    pub unit: u16,
    pub beat: u8,
    pub flags: FlagSet,
}

impl RspLine {
    ghost use Rattle.std.specs.Prelude.{◌≡◌};
    ghost use Rattle.script_text.specs.Configuring.{responder_part};

    // The responder with its opaque data and its algorithms.
    fn part(self, opaque: Bytes, suites: Suites) -> RspPart
        ensures { result ≡ responder_part self opaque suites }
    {
        RspPart {
            eid: self.eid,
            transfer: self.transfer,
            max: self.max,
            unit: self.unit,
            beat: self.beat,
            flags: self.flags,
            opaque,
            suites,
        }
    }
}

/// What the lines of a configuration said so far.
#[derive(Drop)]
pub struct PartialConfig {
    pub seed: Option<[u8; 32]>,
    pub responder: Option<RspLine>,
    pub opaque: Option<Bytes>,
    pub blocks: Blocks,
    pub requesters: ReqParts,
    /// The algorithms of the responder.
    pub responder_suites: Suites,
    /// Which ends had a line with their algorithms: the responder, and requester n at place n.
    pub has_suites: [bool; 9],
    /// `end` was read.
    pub ended: bool,
}

impl PartialConfig {
    ghost use Rattle.std.specs.Prelude.{◌≡◌};
    ghost use Rattle.script_text.specs.Configuring.{nothing_given, config_of};

    /// Before the first line.
    pub fn new(alloc: Global) -> PartialConfig
        ensures { result ≡ nothing_given }
    {
        PartialConfig {
            seed: None,
            responder: None,
            opaque: None,
            blocks: Blocks::new(alloc),
            requesters: ReqParts::new(alloc),
            responder_suites: SMALL_SUITES,
            has_suites: [false; 9],
            ended: false,
        }
    }

    /// The configuration, once its `end` was read.
    pub fn config(self, alloc: Global) -> Option<ScriptConfig>
        ensures { result ≡ config_of self }
    {
        if !self.ended {
            return None;
        }
        let responder = self.responder?;
        Some(ScriptConfig {
            seed: self.seed,
            responder: responder.part(
                self.opaque.unwrap_or(Bytes::new(alloc)),
                self.responder_suites,
            ),
            blocks: self.blocks,
            requesters: self.requesters,
        })
    }
}
