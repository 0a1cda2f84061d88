ghost use Rattle.std.specs.Prelude.{◌≡◌, ◌==◌, OnOk, IfOk};
ghost use Rattle.script_text.specs.Configuring.{requester_fault, after_requester, requester_of, has_psk, numbers_of};
ghost use Rattle.script_text.specs.Choices.{flags_of};
ghost use Rattle.script_text.specs.HexWords.{bytes_of};
ghost use Rattle.script_text.specs.Lines.{word};
ghost use Rattle.script_text.specs.Tests.{IsAnswerTo};

use crate::configuration::config::ReqPart;
use crate::configuration::end_numbers::EndNumbers;
use crate::configuration::partial_config::{PartialConfig, SMALL_SUITES};
use crate::configuration::responder_line::{end_flags, has_eid};
use crate::reading::hex_words::{bytes_of, hex_len, psk_of};
use crate::reading::words::{has_words, word};
use crate::texts::faults::{LineError, LineFault};
use spdm_basis::{OutOfMemory, Psk};
use spdm_grammar::FlagSet;
use spdm_grammar::names::MAX_OPAQUE_LEN;
use std::alloc::Global;

/// The most requesters of a script.
pub const MOST_REQUESTERS: usize = 8;

/// Takes the line `requester EID TRANSFER MAX UNIT PAD FLAGS HINT PSK OPAQUE`.
#[tactic(auto, unfolding(crate::specs::Configuring::requester_fault, crate::specs::Configuring::after_requester))]
pub fn take_requester(
    alloc: Global,
    given: &mut PartialConfig,
    line: &[u8],
) -> Result<(), LineError>
    ensures answer { IsAnswerTo (requester_fault given.old line.now) result }
    ensures after { OnOk result (given.new ≡ after_requester given.old line.now) }
{
    if given.ended {
        return Err(LineError::Fault(LineFault::Order));
    }
    if !has_words(10, line) {
        return Err(LineError::Fault(LineFault::Words));
    }
    let Some(numbers) = EndNumbers::read(16, line) else {
        return Err(LineError::Fault(LineFault::Number));
    };
    if hex_len(0, 64, word(7, line)).is_none() {
        return Err(LineError::Fault(LineFault::Hex));
    }
    let Some(psk) = psk_of(word(8, line)) else {
        return Err(LineError::Fault(LineFault::Hex));
    };
    if hex_len(0, MAX_OPAQUE_LEN, word(9, line)).is_none() {
        return Err(LineError::Fault(LineFault::Hex));
    }
    let Some(flags) = end_flags(numbers.transfer, numbers.max, word(6, line)) else {
        return Err(LineError::Fault(LineFault::Flags));
    };
    if given.requesters.as_slice().len() >= MOST_REQUESTERS {
        return Err(LineError::Fault(LineFault::TooMany));
    }
    if has_eid(numbers.eid.number(), given) {
        return Err(LineError::Fault(LineFault::SameEid));
    }
    if has_psk(psk.as_slice(), given.requesters.as_slice()) {
        return Err(LineError::Fault(LineFault::SamePsk));
    }
    let requester = requester_of(alloc, numbers, flags, psk, line)?;
    given.requesters.push(requester)?;
    Ok(())
}

// The requester that a line says, of which the numbers, the capabilities and the key were read.
#[tactic(auto, unfolding(crate::specs::Configuring::requester_of))]
fn requester_of(
    alloc: Global,
    numbers: EndNumbers,
    flags: FlagSet,
    psk: Psk,
    line: &[u8],
) -> Result<ReqPart, OutOfMemory>
    requires numbers { numbers ≡ numbers_of line.now }
    requires flags { flags ≡ flags_of (word 6 line.now) }
    requires psk { psk ≡ bytes_of (word 8 line.now) }
    ensures { IfOk result (λ requester. requester ≡ requester_of line.now) }
{
    Ok(ReqPart {
        eid: numbers.eid,
        transfer: numbers.transfer,
        max: numbers.max,
        unit: numbers.unit,
        pad: numbers.own,
        flags,
        hint: bytes_of(alloc, word(7, line))?,
        psk,
        opaque: bytes_of(alloc, word(9, line))?,
        suites: SMALL_SUITES,
    })
}

// Whether a requester has this pre-shared key.
fn has_psk(psk: &[u8], requesters: &[ReqPart]) -> bool
    ensures { result ≡ has_psk psk.now requesters.now }
{
    requesters
        .iter()
        .any(|requester| requester.psk.as_slice() == psk)
}
