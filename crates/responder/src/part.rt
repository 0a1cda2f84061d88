ghost use Rattle.std.specs.Prelude.{◌≤◌, length};
ghost use Rattle.spdm_grammar.specs.declared.names.TheConstants.{MAX_OPAQUE_LEN};

use crate::{Known, RspConfig, RspConfigFault};
use measurements::Inventory;
use responder_core::Setup;
use spdm_basis::{Bytes, Eid};
use spdm_grammar::{FlagSet, Suites};
use std::alloc::Global;

// The part of a responder's configuration that concerns all requesters.
#[derive(Drop)]
pub struct Part {
    pub(crate) eid: Eid,
    pub(crate) transfer: u32,
    pub(crate) max: u32,
    pub(crate) unit: u16,
    pub(crate) beat: u8,
    pub(crate) flags: FlagSet,
    pub(crate) opaque: Bytes,
    pub(crate) inventory: Inventory,
    pub(crate) suites: Suites,
    pub(crate) ghost unit_low: { 64 ≤ unit },
    pub(crate) ghost unit_high: { unit ≤ 1024 },
    pub(crate) ghost opaque_fits: { length opaque ≤ MAX_OPAQUE_LEN },
}

impl Part {
    ghost use Rattle.std.specs.Prelude.{◌≡◌, ◌≤◌, None, IfErr, IfOk, OnOk, length};
    ghost use Rattle.responder_core.specs.Setup.{IsSetUp};
    ghost use Rattle.responder.specs.Config.{IsCause, config_fault};
    ghost use Rattle.responder.specs.SetUp.{IsPart, known_of, part_of};
    ghost use Rattle.responder_machine.specs.Setup.{RspPart, towards};

    // Extracts it from a configuration, or returns the configuration's first fault.
    pub(crate) fn new(alloc: Global, config: &RspConfig<'_>) -> Result<Part, RspConfigFault>
        ensures kept { IfOk result (λ part. IsPart part (part_of config.now)) }
        ensures sound { OnOk result (config_fault config.now ≡ None) }
        ensures fault { IfErr result (λ fault. IsCause config.now fault) }
    {
        let inventory = config.inventory(alloc)?;
        let Ok(opaque) = Bytes::copy(alloc, config.opaque) else {
            return Err(RspConfigFault::OutOfMemory);
        };
        Ok(Part {
            eid: config.eid,
            transfer: config.transfer,
            max: config.max,
            unit: config.unit,
            beat: config.beat,
            flags: config.flags,
            opaque,
            inventory,
            suites: config.suites,
        })
    }

    // The configuration of the connection with one requester.
    pub(crate) fn towards<'a>(&'a self, known: &'a Known) -> Setup<'a>
        ensures set { (p : RspPart) → IsPart self.now p
            → IsSetUp result (towards p (known_of known.now)) }
        ensures fits { length result.opaque.now ≤ MAX_OPAQUE_LEN }
    {
        Setup {
            transfer: self.transfer,
            max: self.max,
            beat: self.beat,
            flags: self.flags,
            opaque: self.opaque.as_slice(),
            inventory: &self.inventory,
            suites: self.suites,
            hint: known.hint.as_slice(),
            psk: &known.psk,
        }
    }
}
