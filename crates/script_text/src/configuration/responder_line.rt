ghost use Rattle.std.specs.Prelude.{◌≡◌, ◌==◌, OnOk, is_some, IfSome};
ghost use Rattle.script_text.specs.Choices.{flags_of};
ghost use Rattle.script_text.specs.Configuring.{responder_fault, after_responder, fits_flags, has_eid, responder_has_eid, requester_has_eid};
ghost use Rattle.script_text.specs.Tests.{IsAnswerTo};

use crate::configuration::config::ReqPart;
use crate::configuration::end_numbers::EndNumbers;
use crate::configuration::partial_config::{PartialConfig, RspLine};
use crate::reading::choices::flags;
use crate::reading::words::{has_words, word};
use crate::texts::faults::{LineError, LineFault};
use spdm_grammar::FlagSet;

/// Takes the line `responder EID TRANSFER MAX UNIT BEAT FLAGS`.
#[tactic(auto, unfolding(crate::specs::Configuring::responder_fault, crate::specs::Configuring::after_responder))]
pub fn take_responder(given: &mut PartialConfig, line: &[u8]) -> Result<(), LineError>
    ensures answer { IsAnswerTo (responder_fault given.old line.now) result }
    ensures after { OnOk result (given.new ≡ after_responder given.old line.now) }
{
    if given.ended {
        return Err(LineError::Fault(LineFault::Order));
    }
    if !has_words(7, line) {
        return Err(LineError::Fault(LineFault::Words));
    }
    let Some(numbers) = EndNumbers::read(255, line) else {
        return Err(LineError::Fault(LineFault::Number));
    };
    let Some(flags) = end_flags(numbers.transfer, numbers.max, word(6, line)) else {
        return Err(LineError::Fault(LineFault::Flags));
    };
    if given.responder.is_some() {
        return Err(LineError::Fault(LineFault::Twice));
    }
    if has_eid(numbers.eid.number(), given) {
        return Err(LineError::Fault(LineFault::SameEid));
    }
    given.responder = Some(RspLine {
        eid: numbers.eid,
        transfer: numbers.transfer,
        max: numbers.max,
        unit: numbers.unit,
        beat: numbers.own,
        flags,
    });
    Ok(())
}

/// The capabilities that a word says, where they go together with these sizes of messages.
pub fn end_flags(transfer: u32, max: u32, word: &[u8]) -> Option<FlagSet>
    ensures valid { is_some result ≡ fits_flags transfer max word.now }
    ensures value { IfSome result (λ flags. flags ≡ flags_of word.now) }
{
    let flags = flags(word)?;
    if !flags.chunk && max > transfer {
        return None;
    }
    Some(flags)
}

/// Whether an end that was configured has this endpoint.
pub fn has_eid(eid: u8, given: &PartialConfig) -> bool
    ensures { result ≡ has_eid eid given.now }
{
    responder_has_eid(eid, given.responder) || requester_has_eid(eid, given.requesters.as_slice())
}

fn responder_has_eid(eid: u8, responder: Option<RspLine>) -> bool
    ensures { result ≡ responder_has_eid eid responder }
{
    match responder {
        None => false,
        Some(responder) => responder.eid.number() == eid,
    }
}

fn requester_has_eid(eid: u8, requesters: &[ReqPart]) -> bool
    ensures { result ≡ requester_has_eid eid requesters.now }
{
    requesters
        .iter()
        .any(|requester| requester.eid.number() == eid)
}
