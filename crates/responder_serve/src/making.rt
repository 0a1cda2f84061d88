ghost use Rattle.std.specs.Prelude.{◌≡◌, ◌≤◌, ◌-◌, ◌^◌, IfErr, IfOk};
ghost use Rattle.responder.specs.Standing.{StandsFor};
ghost use Rattle.responder_serve.specs.Served.{responder_in_life};
ghost use Rattle.responder_serve.specs.Told.{IsEarly, of_responder};

use crate::ServeFault;
use responder::{Responder, RspConfigFault};
use script_ends::make_responder;
use script_text::ScriptConfig;
use std::alloc::Global;

// Why there is no responder, as why nothing is served.
fn fault_of_responder(fault: RspConfigFault) -> ServeFault
    ensures { result ≡ of_responder fault }
{
    match fault {
        RspConfigFault::TooManyRequesters => {
            ServeFault::Responder(RspConfigFault::TooManyRequesters)
        }
        RspConfigFault::SameEid => ServeFault::Responder(RspConfigFault::SameEid),
        RspConfigFault::SamePsk => ServeFault::Responder(RspConfigFault::SamePsk),
        RspConfigFault::SizeRange => ServeFault::Responder(RspConfigFault::SizeRange),
        RspConfigFault::Inventory(of) => ServeFault::Responder(RspConfigFault::Inventory(of)),
        RspConfigFault::OutOfMemory => ServeFault::OutOfMemory,
    }
}

/// The responder of a configuration with this seed, in the life of this boot number.
pub(crate) fn new_responder(
    alloc: Global,
    config: &ScriptConfig,
    seed: [u8; 32],
    boot: u32,
) -> Result<Responder, ServeFault>
    requires { boot ≤ 2 ^ 24 - 2 }
    ensures stands { IfOk result
        (λ responder. StandsFor responder (responder_in_life config.now seed boot)) }
    ensures fault { IfErr result (IsEarly config.now) }
{
    match make_responder(alloc, config, seed, boot) {
        Ok(responder) => Ok(responder),
        Err(fault) => Err(fault_of_responder(fault)),
    }
}
