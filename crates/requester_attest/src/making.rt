ghost use Rattle.std.specs.Prelude.{◌≡◌, ◌<◌, ◌≤◌, ◌-◌, ◌^◌, Some, IfErr, IfOk, length};
ghost use Rattle.attestor.specs.Attesting.{Attesting};
ghost use Rattle.attestor.specs.Standing.{StandsFor};
ghost use Rattle.requester_attest.specs.Attested.{attesting_in_life};
ghost use Rattle.requester_drive.specs.Told.{IsEarly, of_requester};

use appraise::Policy;
use attestor::Attestor;
use requester::ReqConfigFault;
use requester_drive::DriveFault;
use script_ends::make_requester;
use script_text::ScriptConfig;
use std::alloc::Global;

// Why there is no requester, as why nothing is attested.
fn fault_of_requester(fault: ReqConfigFault) -> DriveFault
    ensures { result ≡ of_requester fault }
{
    match fault {
        ReqConfigFault::SameEid => DriveFault::Requester(ReqConfigFault::SameEid),
        ReqConfigFault::SizeRange => DriveFault::Requester(ReqConfigFault::SizeRange),
        ReqConfigFault::OutOfMemory => DriveFault::OutOfMemory,
    }
}

/// An attestor over the first requester of a configuration with this seed, in the life of this boot number. It appraises
/// under this policy.
pub(crate) fn first_attestor(
    alloc: Global,
    config: &ScriptConfig,
    policy: Policy,
    seed: [u8; 32],
    boot: u32,
) -> Result<Attestor, DriveFault>
    requires some { 0 < length config.now.requesters }
    requires boot { boot ≤ 2 ^ 24 - 2 }
    ensures stands { (a : Attesting) → attesting_in_life config.now policy seed boot ≡ Some a
        → IfOk result (λ attestor. StandsFor attestor a) }
    ensures fault { IfErr result (IsEarly config.now) }
{
    let [q, ..] = config.requesters.as_slice() else {
        unreachable!()
    };
    match make_requester(alloc, config.responder.eid, q, seed, boot) {
        Ok(requester) => Ok(Attestor::over(requester, policy)),
        Err(fault) => Err(fault_of_requester(fault)),
    }
}
