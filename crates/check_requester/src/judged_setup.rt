use requester_core::Setup;
use spdm_basis::{Bytes, OutOfMemory, Psk};
use spdm_grammar::{FlagSet, Suites};
use std::alloc::Global;

// What is kept of how a requester is set up.
#[derive(Drop)]
pub struct JudgedSetup {
    pub(crate) transfer: u32,
    pub(crate) max: u32,
    pub(crate) flags: FlagSet,
    pub(crate) suites: Suites,
    pub(crate) hint: Bytes,
    pub(crate) psk: Psk,
}

impl JudgedSetup {
    ghost use Rattle.std.specs.Prelude.{◌≡◌, IfOk};
    ghost use Rattle.requester_core.specs.Setup.{IsSetUp};
    ghost use Rattle.requester_machine.specs.May as may;
    ghost use Rattle.requester_machine.specs.Setup.{ReqSetup};
    ghost use Rattle.check_requester.specs.JudgedRequester.{IsKeptSetup};

    // What is kept of a set-up and its pre-shared key.
    pub(crate) fn new(
        alloc: Global,
        setup: &Setup<'_>,
        psk: &Psk,
    ) -> Result<JudgedSetup, OutOfMemory>
        ensures { (q : ReqSetup) → IsSetUp setup.now q → may.IsSetUp q → q.psk ≡ psk.now
            → IfOk result (λ kept. IsKeptSetup kept q) }
    {
        let hint = Bytes::copy(alloc, setup.hint)?;
        Ok(JudgedSetup {
            transfer: setup.transfer,
            max: setup.max,
            flags: setup.flags,
            suites: setup.suites,
            hint,
            psk: psk.clone().unwrap(),
        })
    }

    // What the requester's own code sees of it.
    pub(crate) fn setup(&self) -> Setup<'_>
        ensures { (q : ReqSetup) → IsKeptSetup self.now q → IsSetUp result q }
    {
        Setup {
            transfer: self.transfer,
            max: self.max,
            flags: self.flags,
            suites: self.suites,
            hint: self.hint.as_slice(),
        }
    }
}
