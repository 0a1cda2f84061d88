ghost use Rattle.std.specs.Prelude.{◌≡◌, ◌≤◌, ◌*◌, ◌-◌, ◌^◌, None, IfErr, IfOk, OnOk};
ghost use Rattle.attestor.specs.Attesting.{attesting_over};
ghost use Rattle.attestor.specs.Standing.{StandsFor};
ghost use Rattle.requester.specs.Config.{IsCause, config_fault};
ghost use Rattle.requester.specs.SetUp.{end_of};
ghost use Rattle.requester.specs.Standing as asking;
ghost use Rattle.requester_machine.specs.History.{outstanding};
ghost use Rattle.requester_machine.specs.Requesting.{Requesting, new_requesting};

use crate::Attestor;
use appraise::Policy;
use requester::{ReqConfig, ReqConfigFault, Requester};
use std::alloc::Global;

impl Attestor {
    /// An attestor over a requester that waits for no answer, as a new one. It appraises under this policy.
    pub fn over(requester: Requester, policy: Policy) -> Attestor
        ensures { (a : Requesting) → asking.StandsFor requester a → outstanding a.history ≡ None
            → StandsFor result (attesting_over a policy) }
    {
        Attestor {
            requester,
            policy,
            is_decided: false,
            is_waiting: false,
        }
    }

    /// An attestor over a new requester. It appraises under this policy. `ReqConfigFault` lists the faults in the order
    /// of the checks.
    pub fn new(
        alloc: Global,
        config: &ReqConfig<'_>,
        seed: [u8; 32],
        policy: Policy,
    ) -> Result<Attestor, ReqConfigFault>
        ensures stands { IfOk result (λ attestor. StandsFor attestor
            (attesting_over (new_requesting (end_of config.now seed 0)) policy)) }
        ensures sound { OnOk result (config_fault config.now ≡ None) }
        ensures fault { IfErr result (λ fault. IsCause config.now fault) }
    {
        Attestor::resume(alloc, config, seed, 0, policy)
    }

    /// An attestor over a new requester. `boot` is the number of earlier boots with this seed, at most 2^24 - 2. Each boot
    /// uses random values that no other boot uses. Faults as for `new`.
    pub fn resume(
        alloc: Global,
        config: &ReqConfig<'_>,
        seed: [u8; 32],
        boot: u32,
        policy: Policy,
    ) -> Result<Attestor, ReqConfigFault>
        requires { boot ≤ 2 ^ 24 - 2 }
        ensures stands { IfOk result (λ attestor. StandsFor attestor
            (attesting_over (new_requesting (end_of config.now seed (boot * 2 ^ 40))) policy)) }
        ensures sound { OnOk result (config_fault config.now ≡ None) }
        ensures fault { IfErr result (λ fault. IsCause config.now fault) }
    {
        match Requester::resume(alloc, config, seed, boot) {
            Ok(requester) => Ok(Attestor::over(requester, policy)),
            Err(fault) => Err(fault),
        }
    }
}
