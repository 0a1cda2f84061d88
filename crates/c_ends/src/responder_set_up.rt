ghost use Rattle.std.specs.Prelude.{◌≡◌, ◌≤◌, [], List, false, None, true, IfErr, IfOk, OnOk, map};
ghost use Rattle.c_ends.specs.Opening.{HasResponderFault, IsConfigFault, IsResponderFault, IsSetBy};
ghost use Rattle.c_ends.specs.Setting.{block_in, has_bad_eid, has_bad_psk, is_eid, is_psk, known_in, last_boot, pick_in, responder_argument, responder_in, suites_in};
ghost use Rattle.responder.specs.SetUp.{known_of};
ghost use Rattle.responder.specs.Standing.{StandsFor};
ghost use Rattle.responder_machine.specs.Responding.{new_responding};

use crate::argument::ArgumentFault;
use crate::giving_back::end_known;
use crate::open_responder::OpenResponder;
use crate::{Block, KnownRequester, Offer, ResponderConfig};
use responder::{Known, RspConfig, RspConfigFault};
use spdm_basis::{Bytes, Eid, OutOfMemory, Psk};
use spdm_grammar::{BlockSpec, Pick, Suites};
use std::alloc::Global;

/// Why a caller's words set up no responder.
#[derive(Clone, Copy, Debug, PartialEq, Eq)]
pub enum ResponderFault {
    /// The words make no configuration.
    Argument(ArgumentFault),
    /// The configuration has this fault.
    Config(RspConfigFault),
}

/// An endpoint ID that was tested.
pub(crate) fn eid_of(number: u8) -> Eid
    requires { is_eid number ≡ true }
    ensures { result.number ≡ number }
{
    match Eid::new(number) {
        Some(eid) => eid,
        None => unreachable!(),
    }
}

/// A pre-shared key that was tested.
pub(crate) fn psk_of(bytes: &[u8]) -> Psk
    requires { is_psk bytes.now ≡ true }
    ensures { result ≡ bytes.now }
{
    match Psk::new(bytes) {
        Some(psk) => psk,
        None => unreachable!(),
    }
}

// The algorithms of a number that was tested.
fn pick_of(number: u8) -> Pick
    ensures { result ≡ pick_in number }
{
    match number {
        1 => Pick::Small,
        2 => Pick::Large,
        _ => Pick::Both,
    }
}

impl Offer {
    /// The algorithms.
    pub(crate) fn suites(&self) -> Suites
        ensures { result ≡ suites_in self.now }
    {
        Suites {
            hash: pick_of(self.hash),
            aead: pick_of(self.aead),
        }
    }
}

fn one_known(alloc: Global, known: &KnownRequester<'_>) -> Result<Known, OutOfMemory>
    requires eid { is_eid known.now.eid ≡ true }
    requires psk { is_psk known.now.psk.now ≡ true }
    ensures { IfOk result (λ made. known_of made ≡ known_in known.now) }
{
    let hint = Bytes::copy(alloc, known.hint)?;
    Ok(Known {
        eid: eid_of(known.eid),
        hint,
        psk: psk_of(known.psk),
    })
}

fn all_known(alloc: Global, known: &[KnownRequester<'_>]) -> Result<Vec<Known>, OutOfMemory>
    requires eids { has_bad_eid known.now ≡ false }
    requires psks { has_bad_psk known.now ≡ false }
    ensures { IfOk result (λ made. map known_of made.items ≡ map known_in known.now) }
{
    let Ok(mut made) = Vec::with_capacity(alloc, known.len()) else {
        return Err(OutOfMemory);
    };
    for one in known {
        let own = one_known(alloc, one)?;
        if made.push(own).is_err() {
            return Err(OutOfMemory);
        }
    }
    Ok(made)
}

fn one_block(alloc: Global, block: &Block<'_>) -> Result<BlockSpec, OutOfMemory>
    ensures { IfOk result (λ made. made ≡ block_in block.now) }
{
    let value = Bytes::copy(alloc, block.value)?;
    Ok(BlockSpec {
        index: block.index,
        value_type: block.value_type,
        tcb: block.tcb != 0,
        value,
    })
}

fn all_blocks(alloc: Global, blocks: &[Block<'_>]) -> Result<Vec<BlockSpec>, OutOfMemory>
    ensures { IfOk result (λ made. made.items ≡ map block_in blocks.now) }
{
    let Ok(mut made) = Vec::with_capacity(alloc, blocks.len()) else {
        return Err(OutOfMemory);
    };
    for one in blocks {
        let own = one_block(alloc, one)?;
        if made.push(own).is_err() {
            return Err(OutOfMemory);
        }
    }
    Ok(made)
}

// The configuration of words that were tested.
fn config_of<'a>(
    config: &'a ResponderConfig<'a>,
    known: &'a [Known],
    blocks: &'a [BlockSpec],
) -> RspConfig<'a>
    requires { is_eid config.now.eid ≡ true }
    ensures { (words : List KnownRequester) (measured : List Block)
        → map known_of known.now ≡ map known_in words → blocks.now ≡ map block_in measured
        → IsSetBy config.now words measured result }
{
    RspConfig {
        eid: eid_of(config.eid),
        transfer: config.transfer,
        max: config.max,
        unit: config.unit,
        beat: config.beat,
        flags: config.offer.flags(),
        opaque: config.opaque,
        blocks,
        known,
        suites: config.offer.suites(),
    }
}

// The responder of words that were tested.
fn configured(
    alloc: Global,
    config: &ResponderConfig<'_>,
    known: &[KnownRequester<'_>],
    blocks: &[Block<'_>],
) -> Result<Box<OpenResponder, Global>, RspConfigFault>
    requires eid { is_eid config.now.eid ≡ true }
    requires eids { has_bad_eid known.now ≡ false }
    requires psks { has_bad_psk known.now ≡ false }
    requires boot { config.now.boot ≤ last_boot }
    ensures stands { IfOk result (λ end. StandsFor end.value.responder
        (new_responding (responder_in config.now known.now blocks.now))) }
    ensures sends { IfOk result (λ end. end.value.out ≡ []) }
    ensures sound { OnOk result (HasResponderFault config.now known.now blocks.now None) }
    ensures fault { IfErr result (λ fault. IsConfigFault config.now known.now blocks.now fault) }
{
    let Ok(requesters) = all_known(alloc, known) else {
        return Err(RspConfigFault::OutOfMemory);
    };
    let Ok(measured) = all_blocks(alloc, blocks) else {
        return Err(RspConfigFault::OutOfMemory);
    };
    let own = config_of(config, requesters.as_slice(), measured.as_slice());
    let made = OpenResponder::new(alloc, &own, *config.seed, config.boot);
    end_known(requesters);
    match made {
        Ok(end) => Ok(end),
        Err(fault) => Err(fault),
    }
}

/// The responder of a caller's words, which was given nothing yet.
pub(crate) fn open_responder(
    alloc: Global,
    config: &ResponderConfig<'_>,
    known: &[KnownRequester<'_>],
    blocks: &[Block<'_>],
) -> Result<Box<OpenResponder, Global>, ResponderFault>
    ensures stands { IfOk result (λ end. StandsFor end.value.responder
        (new_responding (responder_in config.now known.now blocks.now))) }
    ensures sends { IfOk result (λ end. end.value.out ≡ []) }
    ensures sound { OnOk result (responder_argument config.now known.now ≡ None) }
    ensures config { OnOk result (HasResponderFault config.now known.now blocks.now None) }
    ensures fault { IfErr result (λ fault. IsResponderFault config.now known.now blocks.now fault) }
{
    if let Some(fault) = config.argument_fault(known) {
        return Err(ResponderFault::Argument(fault));
    }
    match configured(alloc, config, known, blocks) {
        Ok(end) => Ok(end),
        Err(fault) => Err(ResponderFault::Config(fault)),
    }
}
