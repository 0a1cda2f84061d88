ghost use Rattle.std.specs.Prelude.{◌≡◌, ◌≢◌, ◌≤◌, ◌↔◌, ◌⊎◌, [], ℕ, List, Some, string_bytes, map};
ghost use Rattle.device_command.specs.Devised.{IsStreamToDevise};
ghost use Rattle.device_command.specs.Outcome.{IsDevised};
ghost use Rattle.spdm_basis.specs.Stream.{HasFault, IsQuiet};
ghost use Rattle.spdm_command.specs.Streams.{outcome_of};
ghost use Rattle.stream_commands.specs.InputEnds.{HasEnd, InputEnd, answer_for};
ghost use Rattle.stream_commands.specs.Outside.{outside};

use crate::stream::device_input;
use spdm_basis::{Seeds, Sink, Source};
use spdm_command::{Outcome, outcome_of_kept};
use std::alloc::Global;
use stream_commands::{KeptFault, StreamFault};

// The outcome of what was answered.
fn outcome_of(answer: &Result<(), StreamFault>) -> Outcome
    ensures { result ≡ outcome_of answer.now }
{
    match answer {
        Ok(()) => Outcome::Done,
        Err(fault) => outcome_of_kept(&Err(KeptFault::Stream(*fault))),
    }
}

/// The command `spdm_device` with these arguments, of which there are none: reads a configuration up to the line `end`,
/// takes one seed, and serves the frames that follow with an application. With arguments it is `Usage`, and nothing
/// changes.
pub fn spdm_device<S: Source, K: Sink, E: Seeds>(
    alloc: Global,
    words: &[String],
    source: &mut S,
    sink: &mut K,
    seeds: &mut E,
) -> Outcome
    // All whole frames of the stream are answered; with each other answer what was written tells how far.
    ensures devised { words.now ≡ [] → IsDevised
        (outside (S.remaining source.old) (K.contents sink.old) (E.left seeds.old)
        (S.faults source.old) (K.faults sink.old) (E.faults seeds.old))
        (outside (S.remaining source.new) (K.contents sink.new) (E.left seeds.new)
        (S.faults source.new) (K.faults sink.new) (E.faults seeds.new)) result }
    ensures devised_exactly { words.now ≡ [] → (input : List ℕ) (end : InputEnd)
        → S.remaining source.old ≡ Some input → HasEnd IsStreamToDevise input end
        → IsQuiet (S.faults source.old) (S.faults source.new)
        → IsQuiet (K.faults sink.old) (K.faults sink.new)
        → IsQuiet (E.faults seeds.old) (E.faults seeds.new)
        → (result ≡ Outcome.OutOfMemory) ⊎ (result ≡ outcome_of (answer_for end)) }

    // Each answer comes at its cause.
    ensures usage { (result ≡ Outcome.Usage) ↔ (words.now ≢ []) }
    ensures nothing_read { result ≡ Outcome.Usage → source.new ≡ source.old }
    ensures nothing_written { result ≡ Outcome.Usage → sink.new ≡ sink.old }
    ensures no_seed { result ≡ Outcome.Usage → seeds.new ≡ seeds.old }
    ensures read_fault { result ≡ Outcome.ReadFault
        → HasFault (S.faults source.old) (S.faults source.new) }
    ensures write_fault { result ≡ Outcome.WriteFault
        → HasFault (K.faults sink.old) (K.faults sink.new) }
    ensures seed_fault { result ≡ Outcome.SeedFault
        → HasFault (E.faults seeds.old) (E.faults seeds.new) }
{
    if !words.is_empty() {
        return Outcome::Usage;
    }
    let answer = device_input(alloc, source, sink, seeds);
    outcome_of(&answer)
}
