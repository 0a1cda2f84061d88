ghost use Rattle.std.specs.Prelude.{◌≡◌, ◌≤◌, ◌↔◌, ◌⊎◌, ℕ, List, Some, None, true};
ghost use Rattle.attest_command.specs.InputEnds as attesting;
ghost use Rattle.kept_command.specs.Answers.{IsAttestedFor, IsAttestedKept, IsDrivenKept, outcome_of_attestation};
ghost use Rattle.kept_command.specs.Words.{call_of};
ghost use Rattle.kept_command.specs.declared.words.Command.TheVariants.{Attest, Drive};
ghost use Rattle.spdm_basis.specs.Stream.{HasFault, IsQuiet};
ghost use Rattle.spdm_command.specs.Streams.{is_of_verdicts, is_unasked, outcome_of_kept};
ghost use Rattle.stream_commands.specs.InputEnds.{HasEnd, InputEnd, IsStreamToDrive};
ghost use Rattle.stream_commands.specs.Kept.{answer_for, keeper_state};
ghost use Rattle.stream_commands.specs.Outside.{outside};

use crate::words::{Command, command_of};
use appraise::Appraisal;
use attest_command::attest_kept_input;
use boot_keeper::Keeper;
use spdm_basis::{Seeds, Sink, Source};
use spdm_command::{Outcome, outcome_of_kept, outcome_of_verdict};
use std::alloc::Global;
use stream_commands::{KeptFault, drive_kept_input};

// The outcome of what came of an attestation.
fn outcome_of_attestation(answer: &Result<Option<Appraisal>, KeptFault>) -> Outcome
    ensures { result ≡ outcome_of_attestation answer.now }
{
    match answer {
        Ok(verdict) => outcome_of_verdict(*verdict),
        Err(fault) => outcome_of_kept(&Err(*fault)),
    }
}

/// The command `spdm_kept` with these arguments. `drive` reads a configuration up to the line `end`, takes one seed, and
/// drives the first configured requester by the frames that follow, in the life of the next boot of the keeper, which is
/// asked for once, behind the seed. `attest` reads a policy too, up to the line `go`, and has that requester measure its
/// responder, up to a verdict, in the life of the next boot likewise. Other words are `Usage`, and nothing changes.
pub fn spdm_kept<S: Source, K: Sink, E: Seeds, P: Keeper>(
    alloc: Global,
    words: &[String],
    source: &mut S,
    sink: &mut K,
    seeds: &mut E,
    keeper: &mut P,
) -> Outcome
    // The word `drive`: the first requester of the configuration is told and given all whole frames, in the life of the
    // next boot; with each other answer what was written tells how far.
    ensures driven { call_of words.now ≡ Some Drive → IsDrivenKept
        (keeper_state (P.contents keeper.old) (P.faults keeper.old))
        (keeper_state (P.contents keeper.new) (P.faults keeper.new))
        (outside (S.remaining source.old) (K.contents sink.old) (E.left seeds.old)
        (S.faults source.old) (K.faults sink.old) (E.faults seeds.old))
        (outside (S.remaining source.new) (K.contents sink.new) (E.left seeds.new)
        (S.faults source.new) (K.faults sink.new) (E.faults seeds.new)) result }
    ensures driven_exactly { call_of words.now ≡ Some Drive
        → (input device : List ℕ) (end : InputEnd) → S.remaining source.old ≡ Some input
        → P.contents keeper.old ≡ Some device → HasEnd IsStreamToDrive input end
        → IsQuiet (S.faults source.old) (S.faults source.new)
        → IsQuiet (K.faults sink.old) (K.faults sink.new)
        → IsQuiet (E.faults seeds.old) (E.faults seeds.new)
        → IsQuiet (P.faults keeper.old) (P.faults keeper.new)
        → (result ≡ Outcome.OutOfMemory) ⊎ (result ≡ outcome_of_kept (answer_for device end)) }

    // The word `attest`: likewise it measures its responder over all whole frames, up to a verdict under the policy behind
    // the configuration.
    ensures attested { call_of words.now ≡ Some Attest → IsAttestedKept
        (keeper_state (P.contents keeper.old) (P.faults keeper.old))
        (keeper_state (P.contents keeper.new) (P.faults keeper.new))
        (outside (S.remaining source.old) (K.contents sink.old) (E.left seeds.old)
        (S.faults source.old) (K.faults sink.old) (E.faults seeds.old))
        (outside (S.remaining source.new) (K.contents sink.new) (E.left seeds.new)
        (S.faults source.new) (K.faults sink.new) (E.faults seeds.new)) result }
    ensures attested_exactly { call_of words.now ≡ Some Attest
        → (input device : List ℕ) (end : InputEnd) → S.remaining source.old ≡ Some input
        → P.contents keeper.old ≡ Some device → attesting.HasEnd input end
        → IsQuiet (S.faults source.old) (S.faults source.new)
        → IsQuiet (K.faults sink.old) (K.faults sink.new)
        → IsQuiet (E.faults seeds.old) (E.faults seeds.new)
        → IsQuiet (P.faults keeper.old) (P.faults keeper.new)
        → (result ≡ Outcome.OutOfMemory) ⊎ IsAttestedFor device end result }
    ensures of_verdicts_alone { is_of_verdicts result ≡ true → call_of words.now ≡ Some Attest }

    // Each answer comes at its cause.
    ensures usage { (result ≡ Outcome.Usage) ↔ (call_of words.now ≡ None) }
    ensures nothing_read { result ≡ Outcome.Usage → source.new ≡ source.old }
    ensures nothing_written { result ≡ Outcome.Usage → sink.new ≡ sink.old }
    ensures no_seed { result ≡ Outcome.Usage → seeds.new ≡ seeds.old }
    ensures unasked { is_unasked result ≡ true → keeper.new ≡ keeper.old }
    ensures read_fault { result ≡ Outcome.ReadFault
        → HasFault (S.faults source.old) (S.faults source.new) }
    ensures write_fault { result ≡ Outcome.WriteFault
        → HasFault (K.faults sink.old) (K.faults sink.new) }
    ensures seed_fault { result ≡ Outcome.SeedFault
        → HasFault (E.faults seeds.old) (E.faults seeds.new) }
    ensures keeper_fault { result ≡ Outcome.KeeperFault
        → HasFault (P.faults keeper.old) (P.faults keeper.new) }
{
    match command_of(words) {
        Some(Command::Drive) => {
            let answer = drive_kept_input(alloc, source, sink, seeds, keeper);
            outcome_of_kept(&answer)
        }
        Some(Command::Attest) => {
            let answer = attest_kept_input(alloc, source, sink, seeds, keeper);
            outcome_of_attestation(&answer)
        }
        None => Outcome::Usage,
    }
}
