ghost use Rattle.std.specs.Prelude.{◌≡◌, ◌≤◌, ◌<◌, length, OnOk};
ghost use Rattle.script_text.specs.Configuring.{suite_fault, after_suite, after_suite_of};
ghost use Rattle.script_text.specs.Tests.{IsAnswerTo};

use crate::configuration::partial_config::PartialConfig;
use crate::reading::choices::{aead, end_number, hash};
use crate::reading::words::{count_of_words, has_words, word};
use crate::texts::faults::{LineError, LineFault};
use spdm_grammar::Suites;

/// Takes the line `suite END HASH AEAD`.
#[tactic(auto, unfolding(crate::specs::Configuring::suite_fault, crate::specs::Configuring::after_suite))]
pub fn take_suite(given: &mut PartialConfig, line: &[u8]) -> Result<(), LineError>
    ensures answer { IsAnswerTo (suite_fault given.old line.now) result }
    ensures after { OnOk result (given.new ≡ after_suite given.old line.now) }
{
    let end = end_number(word(1, line));
    if count_of_words(line) >= 2 && end.is_none() {
        return Err(LineError::Fault(LineFault::Unknown));
    }
    if given.ended {
        return Err(LineError::Fault(LineFault::Order));
    }
    if !has_words(4, line) {
        return Err(LineError::Fault(LineFault::Words));
    }
    let Some(hash) = hash(word(2, line)) else {
        return Err(LineError::Fault(LineFault::Flags));
    };
    let Some(aead) = aead(word(3, line)) else {
        return Err(LineError::Fault(LineFault::Flags));
    };
    let end = usize::from(end.unwrap_or(0));
    if given.has_suites[end] {
        return Err(LineError::Fault(LineFault::Twice));
    }
    if given.requesters.as_slice().len() < end {
        return Err(LineError::Fault(LineFault::NoSuchEnd));
    }
    set_suites(given, end, Suites { hash, aead });
    Ok(())
}

// Gives an end its algorithms.
fn set_suites(given: &mut PartialConfig, end: usize, suites: Suites)
    requires configured { end ≤ length given.old.requesters }
    requires few { end ≤ 8 }
    ensures { given.new ≡ after_suite_of end suites given.old }
{
    given.has_suites[end] = true;
    if end == 0 {
        given.responder_suites = suites;
    } else {
        given.requesters.set_suites(end - 1, suites);
    }
}
