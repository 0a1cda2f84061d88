ghost use Rattle.std.specs.Prelude.{◌≡◌, OnOk};
ghost use Rattle.script_text.specs.Configuring.{opaque_fault, after_opaque};
ghost use Rattle.script_text.specs.Tests.{IsAnswerTo};

use crate::configuration::partial_config::PartialConfig;
use crate::reading::hex_words::{bytes_of, hex_len};
use crate::reading::words::{has_words, word};
use crate::texts::faults::{LineError, LineFault};
use spdm_grammar::names::MAX_OPAQUE_LEN;
use std::alloc::Global;

/// Takes the line `opaque H`.
#[tactic(auto, unfolding(crate::specs::Configuring::opaque_fault, crate::specs::Configuring::after_opaque))]
pub fn take_opaque(alloc: Global, given: &mut PartialConfig, line: &[u8]) -> Result<(), LineError>
    ensures answer { IsAnswerTo (opaque_fault given.old line.now) result }
    ensures after { OnOk result (given.new ≡ after_opaque given.old line.now) }
{
    if given.ended {
        return Err(LineError::Fault(LineFault::Order));
    }
    if !has_words(2, line) {
        return Err(LineError::Fault(LineFault::Words));
    }
    if hex_len(0, MAX_OPAQUE_LEN, word(1, line)).is_none() {
        return Err(LineError::Fault(LineFault::Hex));
    }
    if given.opaque.is_some() {
        return Err(LineError::Fault(LineFault::Twice));
    }
    given.opaque = Some(bytes_of(alloc, word(1, line))?);
    Ok(())
}
