ghost use Rattle.std.specs.Prelude.{◌≡◌, OnOk};
ghost use Rattle.script_text.specs.Configuring.{seed_fault, after_seed};
ghost use Rattle.script_text.specs.Tests.{IsAnswerTo};

use crate::configuration::partial_config::PartialConfig;
use crate::reading::hex_words::{hex_len, seed_of};
use crate::reading::words::{has_words, word};
use crate::texts::faults::{LineError, LineFault};

/// Takes the line `seed H`.
#[tactic(auto, unfolding(crate::specs::Configuring::seed_fault, crate::specs::Configuring::after_seed))]
pub fn take_seed(given: &mut PartialConfig, line: &[u8]) -> Result<(), LineError>
    ensures answer { IsAnswerTo (seed_fault given.old line.now) result }
    ensures after { OnOk result (given.new ≡ after_seed given.old line.now) }
{
    if given.ended {
        return Err(LineError::Fault(LineFault::Order));
    }
    if !has_words(2, line) {
        return Err(LineError::Fault(LineFault::Words));
    }
    if hex_len(32, 32, word(1, line)).is_none() {
        return Err(LineError::Fault(LineFault::Hex));
    }
    if given.seed.is_some() {
        return Err(LineError::Fault(LineFault::Twice));
    }
    given.seed = Some(seed_of(word(1, line)));
    Ok(())
}
