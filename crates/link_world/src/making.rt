ghost use Rattle.std.specs.Prelude.{◌≡◌, ◌≤◌, ◌-◌, ◌^◌, ℕ, List, Some, None, IfErr, IfOk, IsSome, OnOk, length, map};
ghost use Rattle.script_ends.specs.Configured.{HasRequesterFault, HasResponderFault, configuration_in, requester_end, requester_in};
ghost use Rattle.link_world.specs.Configured.{HaveNoFault, IsCause, IsSound};
ghost use Rattle.link_world.specs.Making.{AreAskersFault, IsAskerFault, of_requester, of_responder};
ghost use Rattle.link_world.specs.Standing.{AreAskers, IsAsker, IsLink};
ghost use Rattle.requester_machine.specs.Requesting.{new_requesting};
ghost use Rattle.responder.specs.Standing as standing;
ghost use Rattle.responder_machine.specs.Responding.{new_responding};
ghost use Rattle.world_machine.specs.Setup.{ends_from, requester_seed, script_world};
ghost use Rattle.world_machine.specs.World.{new_world};

use crate::ends::{AddressedRequester, Ends};
use crate::link::Link;
use crate::{SentPackets, WorldFault};
use hmac_hkdf::hmac;
use mctp_framing::PacketList;
use requester::ReqConfigFault;
use responder::{Responder, RspConfigFault};
use script_ends::{make_requester, make_responder};
use script_text::{ReqPart, ScriptConfig};
use spdm_basis::Eid;
use std::alloc::Global;

// Converts a responder's fault.
fn fault_of_responder(fault: RspConfigFault) -> WorldFault
    ensures { result ≡ of_responder fault }
{
    match fault {
        RspConfigFault::TooManyRequesters => {
            WorldFault::Responder(RspConfigFault::TooManyRequesters)
        }
        RspConfigFault::SameEid => WorldFault::Responder(RspConfigFault::SameEid),
        RspConfigFault::SamePsk => WorldFault::Responder(RspConfigFault::SamePsk),
        RspConfigFault::SizeRange => WorldFault::Responder(RspConfigFault::SizeRange),
        RspConfigFault::Inventory(of) => WorldFault::Responder(RspConfigFault::Inventory(of)),
        RspConfigFault::OutOfMemory => WorldFault::OutOfMemory,
    }
}

// The responder of a configuration.
fn responder_of(
    alloc: Global,
    config: &ScriptConfig,
    seed: &[u8; 32],
    boot: u32,
) -> Result<Responder, WorldFault>
    requires { boot ≤ 2 ^ 24 - 2 }
    ensures stands { IfOk result (λ responder. standing.StandsFor responder (new_responding
        (script_world (configuration_in config.now) seed.now boot).responder)) }
    ensures sound { OnOk result (HasResponderFault config.now None) }
    ensures fault { IfErr result (λ fault. IsCause config.now fault) }
{
    match make_responder(alloc, config, hmac(seed, &[0x72]), boot) {
        Ok(responder) => Ok(responder),
        Err(fault) => Err(fault_of_responder(fault)),
    }
}

// Converts a requester's fault.
fn fault_of_requester(fault: ReqConfigFault) -> WorldFault
    ensures { result ≡ of_requester fault }
{
    match fault {
        ReqConfigFault::SameEid => WorldFault::Requester(ReqConfigFault::SameEid),
        ReqConfigFault::SizeRange => WorldFault::Requester(ReqConfigFault::SizeRange),
        ReqConfigFault::OutOfMemory => WorldFault::OutOfMemory,
    }
}

// The requester of a number.
fn asker_of(
    alloc: Global,
    responder: Eid,
    q: &ReqPart,
    number: u8,
    seed: &[u8; 32],
    boot: u32,
) -> Result<AddressedRequester, WorldFault>
    requires { boot ≤ 2 ^ 24 - 2 }
    ensures stands { IfOk result (λ asker. IsAsker asker (new_requesting
        (requester_end responder.number q.now (requester_seed seed.now number) boot))) }
    ensures sound { OnOk result (HasRequesterFault responder.number q.now None) }
    ensures fault { IfErr result (λ fault. IsAskerFault responder.number q.now fault) }
{
    match make_requester(alloc, responder, q, hmac(seed, &[0x71, number]), boot) {
        Ok(requester) => Ok(AddressedRequester {
            eid: q.eid,
            requester,
        }),
        Err(fault) => Err(fault_of_requester(fault)),
    }
}

// The requesters, numbered from 1 on.
fn askers_of(
    alloc: Global,
    responder: Eid,
    requesters: &[ReqPart],
    seed: &[u8; 32],
    boot: u32,
) -> Result<Vec<AddressedRequester>, WorldFault>
    requires few { length requesters.now ≤ 8 }
    requires boot { boot ≤ 2 ^ 24 - 2 }
    ensures stands { IfOk result (λ askers. AreAskers askers.items (map new_requesting
        (ends_from 1 seed.now boot (map (requester_in responder.number) requesters.now)))) }
    ensures sound { OnOk result (HaveNoFault responder.number requesters.now) }
    ensures fault { IfErr result (λ fault. AreAskersFault responder.number requesters.now fault) }
{
    let mut askers = Vec::new(alloc);
    let mut number: u8 = 0;
    for q in requesters {
        number = number.wrapping_add(1);
        let asker = asker_of(alloc, responder, q, number, seed, boot)?;
        if askers.push(asker).is_err() {
            return Err(WorldFault::OutOfMemory);
        }
    }
    Ok(askers)
}

/// The endpoints of a configuration, and no packets.
pub(crate) fn link_of(alloc: Global, config: &ScriptConfig, boot: u32) -> Result<Link, WorldFault>
    requires seed { IsSome config.now.seed }
    requires boot { boot ≤ 2 ^ 24 - 2 }
    ensures stands { (seed : List ℕ) → config.now.seed ≡ Some seed → IfOk result
        (λ link. IsLink link (new_world (script_world (configuration_in config.now) seed boot))) }
    ensures sound { OnOk result (IsSound config.now) }
    ensures fault { IfErr result (λ fault. IsCause config.now fault) }
{
    let Some(seed) = config.seed else {
        unreachable!()
    };
    let responder = responder_of(alloc, config, &seed, boot)?;
    let eid = config.responder.eid;
    let requesters = askers_of(alloc, eid, config.requesters.as_slice(), &seed, boot)?;
    let Ok(out) = PacketList::new(alloc) else {
        return Err(WorldFault::OutOfMemory);
    };
    let ends = Ends {
        requesters,
        eid,
        responder,
        taken: 0,
    };
    Ok(Link {
        ends,
        sent: SentPackets::new(alloc),
        out,
    })
}
