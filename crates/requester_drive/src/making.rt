ghost use Rattle.std.specs.Prelude.{◌≡◌, ◌<◌, ◌≤◌, ◌-◌, ◌^◌, Some, IfErr, IfOk, length};
ghost use Rattle.requester.specs.Standing.{StandsFor};
ghost use Rattle.requester_drive.specs.First.{first_in_life};
ghost use Rattle.requester_drive.specs.Told.{IsEarly, of_requester};
ghost use Rattle.requester_machine.specs.Requesting.{Requesting};

use crate::DriveFault;
use requester::{ReqConfigFault, Requester};
use script_ends::make_requester;
use script_text::ScriptConfig;
use std::alloc::Global;

// Why there is no requester, as why nothing is driven.
fn fault_of_requester(fault: ReqConfigFault) -> DriveFault
    ensures { result ≡ of_requester fault }
{
    match fault {
        ReqConfigFault::SameEid => DriveFault::Requester(ReqConfigFault::SameEid),
        ReqConfigFault::SizeRange => DriveFault::Requester(ReqConfigFault::SizeRange),
        ReqConfigFault::OutOfMemory => DriveFault::OutOfMemory,
    }
}

/// The first requester of a configuration with this seed, in the life of this boot number.
pub(crate) fn first_requester(
    alloc: Global,
    config: &ScriptConfig,
    seed: [u8; 32],
    boot: u32,
) -> Result<Requester, DriveFault>
    requires some { 0 < length config.now.requesters }
    requires boot { boot ≤ 2 ^ 24 - 2 }
    ensures stands { (a : Requesting) → first_in_life config.now seed boot ≡ Some a → IfOk result
        (λ requester. StandsFor requester a) }
    ensures fault { IfErr result (IsEarly config.now) }
{
    let [q, ..] = config.requesters.as_slice() else {
        unreachable!()
    };
    match make_requester(alloc, config.responder.eid, q, seed, boot) {
        Ok(requester) => Ok(requester),
        Err(fault) => Err(fault_of_requester(fault)),
    }
}
