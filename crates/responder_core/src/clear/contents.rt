ghost use Rattle.std.specs.Prelude.{◌≡◌, Some, if◌then◌else◌};
ghost use Rattle.spdm_grammar.specs.Fields.{FitsCaps};
ghost use Rattle.std.specs.Result.{result_ok};
ghost use Rattle.negotiate.specs.Capabilities.{common_of};
ghost use Rattle.negotiate.specs.Choosing.{selected};
ghost use Rattle.responder_machine.specs.Place as places;
ghost use Rattle.responder_machine.specs.Refusal as refusal;
ghost use Rattle.responder_machine.specs.Setup.{RspSetup, policy_of, responder_caps};
ghost use Rattle.spdm_grammar.specs.Codes.{code_for};
ghost use Rattle.spdm_grammar.specs.Message.{offer_message, request_message};
ghost use Rattle.responder_core.specs.Contents.{asks_missing};
ghost use Rattle.responder_core.specs.Setup.{IsSetUp};
ghost use Rattle.responder_rules.specs.Place.{IsPlace};

use crate::Setup;
use negotiate::{AlgPolicy, Common, common, select};
use responder_rules::Place;
use spdm_basis::Frame;
use spdm_grammar::names::capability::{
    CHUNK_CAP, ENCRYPT_CAP, HBEAT_CAP, KEY_UPD_CAP, MAC_CAP, MEAS_CAP, PSK_CAP_WITH_CONTEXT,
};
use spdm_grammar::names::request_code::{
    CHUNK_GET, CHUNK_SEND, END_SESSION, GET_CAPABILITIES, GET_MEASUREMENTS, GET_VERSION, HEARTBEAT,
    KEY_UPDATE, NEGOTIATE_ALGORITHMS, PSK_EXCHANGE, PSK_FINISH,
};
use spdm_grammar::{AlgOffer, Caps, Choice, Request};

// The bits of a capability where it is announced.
fn bits_if(is_announced: bool, bits: u32) -> u32
    ensures { result ≡ (if is_announced then bits else 0) }
{
    if is_announced { bits } else { 0 }
}

/// The capabilities that the responder announces (DSP0274, "CAPABILITIES").
pub fn announced(setup: &Setup<'_>) -> Caps
    ensures value { (r : RspSetup) → IsSetUp setup.now r → result ≡ responder_caps r }
    ensures fits { FitsCaps result }
{
    let flags = setup.flags;
    Caps {
        ct: 0,
        flags: ENCRYPT_CAP
            + MAC_CAP
            + PSK_CAP_WITH_CONTEXT
            + bits_if(flags.measure, MEAS_CAP)
            + (bits_if(flags.heartbeat, HBEAT_CAP)
                + bits_if(flags.key_update, KEY_UPD_CAP)
                + bits_if(flags.chunk, CHUNK_CAP)),
        transfer: setup.transfer,
        max: setup.max,
    }
}

/// What a requester with these capabilities and the responder can do together; `None` where they do not go together.
pub fn common_with(setup: &Setup<'_>, caps: &Caps) -> Option<Common>
    ensures value { (r : RspSetup) → IsSetUp setup.now r
        → result ≡ result_ok (common_of caps.now (responder_caps r)) }
    ensures fits { (r : RspSetup) → IsSetUp setup.now r → FitsCaps (responder_caps r) }
{
    common(caps, &announced(setup)).ok()
}

/// What the responder chooses of an offer; `None` where it finds no choice.
pub fn choice_of(setup: &Setup<'_>, offer: &AlgOffer<'_>) -> Option<Choice>
    ensures { (r : RspSetup) → IsSetUp setup.now r
        → result ≡ selected (offer_message offer.now) (policy_of r) }
{
    let policy = AlgPolicy {
        measure: setup.flags.measure,
        suites: setup.suites,
        transfer: setup.transfer,
    };
    select(offer, &policy).ok()
}

/// Whether it is GET_CAPABILITIES with capabilities that do not go together with the responder's.
pub fn are_caps_refused(setup: &Setup<'_>, request: &Request<'_>) -> bool
    ensures { (r : RspSetup) → IsSetUp setup.now r
        → result ≡ refusal.are_caps_refused r (Some (request_message request.now)) }
{
    match request {
        Request::GetCapabilities(caps) => common_with(setup, caps).is_none(),
        _ => false,
    }
}

/// Whether it is NEGOTIATE_ALGORITHMS with an offer of which the responder finds no choice.
pub fn is_offer_refused(setup: &Setup<'_>, request: &Request<'_>) -> bool
    ensures { (r : RspSetup) → IsSetUp setup.now r
        → result ≡ refusal.is_offer_refused r (Some (request_message request.now)) }
{
    match request {
        Request::NegotiateAlgorithms(offer) => choice_of(setup, offer).is_none(),
        _ => false,
    }
}

/// Whether it is GET_MEASUREMENTS of a block that is not there.
pub fn has_no_block(setup: &Setup<'_>, request: &Request<'_>) -> bool
    ensures value { (r : RspSetup) → IsSetUp setup.now r
        → result ≡ refusal.has_no_block r (Some (request_message request.now)) }
    ensures missing { result ≡ asks_missing setup.now.inventory.now (request_message request.now) }
{
    match request {
        Request::GetMeasurements { op } => setup.inventory.record(*op, &mut Frame::new()).is_err(),
        _ => false,
    }
}

/// Whether it is PSK_EXCHANGE with another hint than this requester's, or one that asks for a summary where
/// measurements were not chosen.
pub fn is_exchange_refused(setup: &Setup<'_>, place: &Place, request: &Request<'_>) -> bool
    ensures { (r : RspSetup) (p : places.Place) → IsSetUp setup.now r → IsPlace place.now p
        → result ≡ refusal.is_exchange_refused r p (Some (request_message request.now)) }
{
    match request {
        Request::PskExchange(exchange) => {
            exchange.hint != setup.hint || (exchange.summary != 0 && !place.choice.measure)
        }
        _ => false,
    }
}

/// The code of a request.
pub fn code_of(request: &Request<'_>) -> u8
    ensures { result ≡ code_for (request_message request.now) }
{
    match request {
        Request::GetVersion => GET_VERSION,
        Request::GetCapabilities(_) => GET_CAPABILITIES,
        Request::NegotiateAlgorithms(_) => NEGOTIATE_ALGORITHMS,
        Request::GetMeasurements { .. } => GET_MEASUREMENTS,
        Request::PskExchange(_) => PSK_EXCHANGE,
        Request::PskFinish { .. } => PSK_FINISH,
        Request::Heartbeat => HEARTBEAT,
        Request::KeyUpdate { .. } => KEY_UPDATE,
        Request::EndSession => END_SESSION,
        Request::ChunkSend(_) => CHUNK_SEND,
        Request::ChunkGet { .. } => CHUNK_GET,
    }
}
