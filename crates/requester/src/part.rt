ghost use Rattle.std.specs.Prelude.{◌≤◌, length};
ghost use Rattle.spdm_grammar.specs.declared.names.TheConstants.{MAX_PADDING};

use crate::{ReqConfig, ReqConfigFault};
use mctp_framing::Route;
use requester_core::Setup;
use spdm_basis::{Bytes, Eid, Psk};
use spdm_grammar::{FlagSet, Suites};
use std::alloc::Global;

// A requester's own copy of its configuration.
#[derive(Drop)]
pub struct Part {
    pub(crate) eid: Eid,
    pub(crate) responder: Eid,
    pub(crate) transfer: u32,
    pub(crate) max: u32,
    pub(crate) unit: u16,
    pub(crate) pad: u8,
    pub(crate) flags: FlagSet,
    pub(crate) hint: Bytes,
    pub(crate) psk: Psk,
    pub(crate) opaque: Bytes,
    pub(crate) suites: Suites,
    pub(crate) ghost unit_low: { 64 ≤ unit },
    pub(crate) ghost unit_high: { unit ≤ 1024 },
    pub(crate) ghost pad_fits: { pad ≤ MAX_PADDING },
}

impl Part {
    ghost use Rattle.std.specs.Prelude.{◌≡◌, ◌%◌, None, true, IfErr, IfOk, OnOk};
    ghost use Rattle.requester_core.specs.Setup.{IsSetUp};
    ghost use Rattle.mctp_framing.specs.Cutting.{route_of};
    ghost use Rattle.requester.specs.Config.{IsCause, config_fault};
    ghost use Rattle.requester.specs.SetUp.{IsPart, setup_of};
    ghost use Rattle.requester_machine.specs.Setup.{ReqSetup};

    // Copies a configuration, or returns its first fault.
    pub(crate) fn new(alloc: Global, config: &ReqConfig<'_>) -> Result<Part, ReqConfigFault>
        ensures kept { IfOk result (λ part. IsPart part (setup_of config.now)) }
        ensures sound { OnOk result (config_fault config.now ≡ None) }
        ensures fault { IfErr result (λ fault. IsCause config.now fault) }
    {
        if let Some(fault) = config.fault() {
            return Err(fault);
        }
        let Ok(hint) = Bytes::copy(alloc, config.hint) else {
            return Err(ReqConfigFault::OutOfMemory);
        };
        let Ok(opaque) = Bytes::copy(alloc, config.opaque) else {
            return Err(ReqConfigFault::OutOfMemory);
        };
        match Psk::new(config.psk.as_slice()) {
            Some(psk) => Ok(Part {
                eid: config.eid,
                responder: config.responder,
                transfer: config.transfer,
                max: config.max,
                unit: config.unit,
                pad: config.pad,
                flags: config.flags,
                hint,
                psk,
                opaque,
                suites: config.suites,
            }),
            None => unreachable!(),
        }
    }

    // The configuration of the layers below.
    pub(crate) fn setup(&self) -> Setup<'_>
        ensures { (q : ReqSetup) → IsPart self.now q → IsSetUp result q }
    {
        Setup {
            transfer: self.transfer,
            max: self.max,
            flags: self.flags,
            suites: self.suites,
            hint: self.hint.as_slice(),
        }
    }

    // The route of a message with this tag. All tags are below 8.
    pub(crate) fn route(&self, tag: u8) -> Route
        ensures { route_of result ≡ record {
          to = self.now.responder.number;
          from = self.now.eid.number;
          owner = true;
          tag = tag % 8;
        } }
    {
        Route {
            to: self.responder,
            from: self.eid,
            owner: true,
            tag: tag % 8,
        }
    }
}
