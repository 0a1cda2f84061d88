ghost use Rattle.std.specs.Prelude.{◌≡◌, OnOk};
ghost use Rattle.script_text.specs.Configuring.{end_fault, after_end};
ghost use Rattle.script_text.specs.Tests.{IsAnswerTo};

use crate::configuration::partial_config::PartialConfig;
use crate::reading::words::has_words;
use crate::texts::faults::{LineError, LineFault};

/// Takes the line `end`, after which nothing is configured any more.
#[tactic(auto, unfolding(crate::specs::Configuring::end_fault, crate::specs::Configuring::after_end))]
pub fn take_end(needs_seed: bool, given: &mut PartialConfig, line: &[u8]) -> Result<(), LineError>
    ensures answer { IsAnswerTo (end_fault needs_seed given.old line.now) result }
    ensures after { OnOk result (given.new ≡ after_end given.old) }
{
    if given.ended {
        return Err(LineError::Fault(LineFault::Order));
    }
    if !has_words(1, line) {
        return Err(LineError::Fault(LineFault::Words));
    }
    if given.responder.is_none()
        || given.requesters.as_slice().is_empty()
        || (needs_seed && given.seed.is_none())
    {
        return Err(LineError::Fault(LineFault::Incomplete));
    }
    given.ended = true;
    Ok(())
}
