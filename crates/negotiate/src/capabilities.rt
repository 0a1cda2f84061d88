ghost use Rattle.std.specs.Prelude.{◌≡◌};
ghost use Rattle.negotiate.specs.Capabilities.{has_all, measures, psk_is, protects, both_have, sizes_of, common_of};

use crate::{Common, Sizes};
use spdm_grammar::names::capability::{
    CHUNK_CAP, ENCRYPT_CAP, HBEAT_CAP, KEY_UPD_CAP, MAC_CAP, MEAS_CAP, MEAS_CAP_BITS,
    MEAS_CAP_SIGNED, PSK_CAP, PSK_CAP_BITS, PSK_CAP_WITH_CONTEXT,
};
use spdm_grammar::names::{MAX_MESSAGE_SIZE, MIN_DATA_TRANSFER_SIZE};
use spdm_grammar::{Caps, CapsFault};

/// The common capabilities of `requester` and `responder`, from GET_CAPABILITIES and CAPABILITIES, or why they are
/// incompatible (DSP0274, "CAPABILITIES"). `CapsFault` lists the reasons in the order of the checks.
pub fn common(requester: &Caps, responder: &Caps) -> Result<Common, CapsFault>
    ensures { result ≡ common_of requester.now responder.now }
{
    if requester.transfer < MIN_DATA_TRANSFER_SIZE || responder.transfer < MIN_DATA_TRANSFER_SIZE {
        return Err(CapsFault::SizeTooSmall);
    }
    if requester.max < requester.transfer || responder.max < responder.transfer {
        return Err(CapsFault::SizesCrossed);
    }
    if requester.flags & PSK_CAP_BITS != PSK_CAP
        || responder.flags & PSK_CAP_BITS != PSK_CAP_WITH_CONTEXT
    {
        return Err(CapsFault::NoPsk);
    }
    if !(protects(requester.flags) && protects(responder.flags)) {
        return Err(CapsFault::NoProtection);
    }
    Ok(Common {
        measure: measures(responder.flags),
        heartbeat: both_have(HBEAT_CAP, requester, responder),
        key_update: both_have(KEY_UPD_CAP, requester, responder),
        chunk: both_have(CHUNK_CAP, requester, responder),
        to_requester: sizes(requester),
        to_responder: sizes(responder),
    })
}

// How long the messages are that an end takes.
fn sizes(caps: &Caps) -> Sizes
    ensures { result ≡ sizes_of caps.now }
{
    Sizes {
        transfer: caps.transfer.min(MAX_MESSAGE_SIZE),
        max: caps.max.min(MAX_MESSAGE_SIZE),
    }
}

/// Whether all these bits are set.
pub fn has_all(flags: u32, bits: u32) -> bool
    ensures { result ≡ has_all flags bits }
{
    flags & bits == bits
}

// Whether both ends have this flag.
fn both_have(flag: u32, requester: &Caps, responder: &Caps) -> bool
    ensures { result ≡ both_have flag requester.now responder.now }
{
    has_all(requester.flags, flag) && has_all(responder.flags, flag)
}

// Whether records are encrypted and authenticated.
fn protects(flags: u32) -> bool
    ensures { result ≡ protects flags }
{
    has_all(flags, ENCRYPT_CAP) && has_all(flags, MAC_CAP)
}

// Whether a responder has measurements, with signatures or without.
fn measures(flags: u32) -> bool
    ensures { result ≡ measures flags }
{
    let cap = flags & MEAS_CAP_BITS;
    cap == MEAS_CAP || cap == MEAS_CAP_SIGNED
}
