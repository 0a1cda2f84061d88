ghost use Rattle.std.specs.Prelude.{◌≡◌, ◌≤◌, ◌-◌, ◌^◌, ℕ, None, IfErr, IfOk, OnOk, map};
ghost use Rattle.script_ends.specs.Configured.{HasResponderFault, IsResponderFault, known_in, requester_in, responder_end, responder_in};
ghost use Rattle.responder.specs.SetUp as answering;
ghost use Rattle.responder.specs.SetUp.{part_of};
ghost use Rattle.responder.specs.Standing.{StandsFor};
ghost use Rattle.responder_machine.specs.Responding.{new_responding};
ghost use Rattle.world_machine.specs.Setup.{known_of};

use responder::{Known, Responder, RspConfig, RspConfigFault};
use script_text::{ReqPart, ScriptConfig};
use spdm_basis::{Bytes, OutOfMemory, Psk};
use std::alloc::Global;

// What a responder knows of a requester.
fn known_of(alloc: Global, q: &ReqPart) -> Result<Known, OutOfMemory>
    ensures { (responder : ℕ) → IfOk result
        (λ known. answering.known_of known ≡ known_of (requester_in responder q.now)) }
{
    let hint = Bytes::copy(alloc, q.hint.as_slice())?;
    match Psk::new(q.psk.as_slice()) {
        Some(psk) => Ok(Known {
            eid: q.eid,
            hint,
            psk,
        }),
        None => unreachable!(),
    }
}

// What a responder knows of all requesters.
fn all_known(alloc: Global, requesters: &[ReqPart]) -> Result<Vec<Known>, OutOfMemory>
    ensures { (responder : ℕ) → IfOk result (λ known.
        map answering.known_of known.items ≡ known_in responder requesters.now) }
{
    let mut known = Vec::new(alloc);
    for q in requesters {
        let own = known_of(alloc, q)?;
        if known.push(own).is_err() {
            return Err(OutOfMemory);
        }
    }
    Ok(known)
}

// How the responder is set up.
fn responder_config<'a>(config: &'a ScriptConfig, known: &'a [Known]) -> RspConfig<'a>
    ensures part { part_of result ≡ responder_in config.now }
    ensures known { result.known.now ≡ known.now }
{
    RspConfig {
        eid: config.responder.eid,
        transfer: config.responder.transfer,
        max: config.responder.max,
        unit: config.responder.unit,
        beat: config.responder.beat,
        flags: config.responder.flags,
        opaque: config.responder.opaque.as_slice(),
        blocks: config.blocks.as_slice(),
        known,
        suites: config.responder.suites,
    }
}

/// The responder of a configuration with this seed, in the life of a boot number of at most 2^24 - 2, which was given
/// nothing yet. A fault is the first of the configuration, of which one that was read from a text has none; or memory
/// ran out.
pub fn make_responder(
    alloc: Global,
    config: &ScriptConfig,
    seed: [u8; 32],
    boot: u32,
) -> Result<Responder, RspConfigFault>
    requires { boot ≤ 2 ^ 24 - 2 }
    ensures stands { IfOk result (λ responder. StandsFor responder
        (new_responding (responder_end config.now seed boot))) }
    ensures sound { OnOk result (HasResponderFault config.now None) }
    ensures fault { IfErr result (IsResponderFault config.now) }
{
    let Ok(known) = all_known(alloc, config.requesters.as_slice()) else {
        return Err(RspConfigFault::OutOfMemory);
    };
    let own = responder_config(config, known.as_slice());
    match Responder::resume(alloc, &own, seed, boot) {
        Ok(responder) => Ok(responder),
        Err(fault) => Err(fault),
    }
}
