use measurements::{Inventory, InventoryFault};
use responder_core::Setup;
use script_text::ScriptConfig;
use spdm_basis::{Bytes, OutOfMemory, Psk};
use spdm_grammar::{FlagSet, Suites};
use std::alloc::Global;

/// How the responder of a capture is set up, for all requesters.
#[derive(Drop)]
pub struct Answering {
    pub(crate) transfer: u32,
    pub(crate) max: u32,
    pub(crate) beat: u8,
    pub(crate) flags: FlagSet,
    pub(crate) opaque: Bytes,
    pub(crate) inventory: Inventory,
    pub(crate) suites: Suites,
}

impl Answering {
    ghost use Rattle.std.specs.Prelude.{◌≡◌, IfOk, None};
    ghost use Rattle.script_ends.specs.Configured.{responder_in};
    ghost use Rattle.responder_core.specs.Setup.{IsSetUp};
    ghost use Rattle.measurements.specs.Faults.{inventory_fault};
    ghost use Rattle.requester_machine.specs.Setup.{ReqSetup};
    ghost use Rattle.responder_machine.specs.Setup.{RspPart, towards};
    ghost use Rattle.trace_check.specs.Limits.{HasLimits, IsAnswering};
    ghost use Rattle.world_machine.specs.Setup.{known_of};

    // The responder of a configuration.
    pub(crate) fn new(alloc: Global, config: &ScriptConfig) -> Result<Answering, OutOfMemory>
        requires { inventory_fault config.now.blocks ≡ None }
        ensures { IfOk result (λ made. IsAnswering made (responder_in config.now)) }
    {
        let inventory = match Inventory::new(alloc, config.blocks.as_slice()) {
            Ok(inventory) => inventory,
            Err(InventoryFault::OutOfMemory) => return Err(OutOfMemory),
            Err(_) => unreachable!(),
        };
        let opaque = Bytes::copy(alloc, config.responder.opaque.as_slice())?;
        Ok(Answering {
            transfer: config.responder.transfer,
            max: config.responder.max,
            beat: config.responder.beat,
            flags: config.responder.flags,
            opaque,
            inventory,
            suites: config.responder.suites,
        })
    }

    // How it is set up towards a requester that gives this hint and has this key.
    pub(crate) fn towards<'a>(&'a self, hint: &'a [u8], psk: &'a Psk) -> Setup<'a>
        ensures { (p : RspPart) (q : ReqSetup) → IsAnswering self.now p → HasLimits p
            → hint.now ≡ q.hint → psk.now ≡ q.psk → IsSetUp result (towards p (known_of q)) }
    {
        Setup {
            transfer: self.transfer,
            max: self.max,
            beat: self.beat,
            flags: self.flags,
            opaque: self.opaque.as_slice(),
            inventory: &self.inventory,
            suites: self.suites,
            hint,
            psk,
        }
    }
}
