ghost use Rattle.std.specs.Prelude.{◌≡◌, ◌≤◌, ◌-◌, ◌^◌, None, IfErr, IfOk, OnOk};
ghost use Rattle.script_ends.specs.Configured.{HasRequesterFault, IsRequesterFault, requester_end, requester_in};
ghost use Rattle.requester.specs.SetUp.{setup_of};
ghost use Rattle.requester.specs.Standing.{StandsFor};
ghost use Rattle.requester_machine.specs.Requesting.{new_requesting};

use requester::{ReqConfig, ReqConfigFault, Requester};
use script_text::ReqPart;
use spdm_basis::{Eid, Psk};
use std::alloc::Global;

// How a requester is set up, beside a responder with this endpoint.
fn requester_config(responder: Eid, q: &ReqPart) -> ReqConfig<'_>
    ensures { setup_of result ≡ requester_in responder.number q.now }
{
    let Some(psk) = Psk::new(q.psk.as_slice()) else {
        unreachable!()
    };
    ReqConfig {
        eid: q.eid,
        responder,
        transfer: q.transfer,
        max: q.max,
        unit: q.unit,
        pad: q.pad,
        flags: q.flags,
        hint: q.hint.as_slice(),
        psk,
        opaque: q.opaque.as_slice(),
        suites: q.suites,
    }
}

/// A requester of a configuration, beside a responder with this endpoint: with this seed, in the life of a boot number
/// of at most 2^24 - 2. It was told and given nothing yet. A fault is its first, of which a requester that was read
/// from a text has none; or memory ran out.
pub fn make_requester(
    alloc: Global,
    responder: Eid,
    q: &ReqPart,
    seed: [u8; 32],
    boot: u32,
) -> Result<Requester, ReqConfigFault>
    requires { boot ≤ 2 ^ 24 - 2 }
    ensures stands { IfOk result (λ requester. StandsFor requester
        (new_requesting (requester_end responder.number q.now seed boot))) }
    ensures sound { OnOk result (HasRequesterFault responder.number q.now None) }
    ensures fault { IfErr result (IsRequesterFault responder.number q.now) }
{
    let own = requester_config(responder, q);
    match Requester::resume(alloc, &own, seed, boot) {
        Ok(requester) => Ok(requester),
        Err(fault) => Err(fault),
    }
}
