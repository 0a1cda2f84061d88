ghost use Rattle.std.specs.Prelude.{◌≡◌, ◌≢◌, ◌⊎◌, ℕ, List, Some, false, true};
ghost use Rattle.attest_command.specs.InputEnds as attesting;
ghost use Rattle.spdm_basis.specs.Stream.{HasFault, IsQuiet};
ghost use Rattle.spdm_command.specs.Checks.{is_of_captures};
ghost use Rattle.spdm_command.specs.Streams.{IsAttested, IsAttestedFor, IsDriven, IsServed, IsServedKept, is_of_keepers, is_of_verdicts, is_unasked, outcome_of, outcome_of_attestation, outcome_of_kept, outcome_of_verdict};
ghost use Rattle.stream_commands.specs.InputEnds.{HasEnd, InputEnd, IsStreamToDrive, IsStreamToServe, answer_for};
ghost use Rattle.stream_commands.specs.Kept as kept;
ghost use Rattle.stream_commands.specs.Kept.{keeper_state};
ghost use Rattle.stream_commands.specs.Outside.{outside};

use crate::outcome::Outcome;
use appraise::Appraisal;
use attest_command::attest_input;
use boot_keeper::{BootFault, Keeper};
use spdm_basis::{Seeds, Sink, Source};
use std::alloc::Global;
use stream_commands::{KeptFault, StreamFault, drive_input, serve_input, serve_kept_input};

// Converts the outcome of a stream to the command's.
fn outcome_of(answer: &Result<(), StreamFault>) -> Outcome
    ensures { result ≡ outcome_of answer.now }
{
    match answer {
        Ok(()) => Outcome::Done,
        Err(StreamFault::BadScript { line, fault }) => Outcome::BadScript {
            line: *line,
            fault: *fault,
        },
        Err(StreamFault::ReadFault) => Outcome::ReadFault,
        Err(StreamFault::WriteFault) => Outcome::WriteFault,
        Err(StreamFault::SeedFault) => Outcome::SeedFault,
        Err(StreamFault::TooLong) => Outcome::TooLong,
        Err(StreamFault::BadFrame { at }) => Outcome::BadFrame { at: *at },
        Err(StreamFault::OutOfMemory) => Outcome::OutOfMemory,
    }
}

/// The outcome of what was answered to a stream in the life of a kept boot.
pub fn outcome_of_kept(answer: &Result<(), KeptFault>) -> Outcome
    ensures { result ≡ outcome_of_kept answer.now }
{
    match answer {
        Ok(()) => Outcome::Done,
        Err(KeptFault::Stream(fault)) => outcome_of(&Err(*fault)),
        Err(KeptFault::Boot(BootFault::KeeperFault)) => Outcome::KeeperFault,
        Err(KeptFault::Boot(BootFault::Spent)) => Outcome::BootsSpent,
    }
}

/// The outcome of a verdict, or of there being none.
pub fn outcome_of_verdict(verdict: Option<Appraisal>) -> Outcome
    ensures { result ≡ outcome_of_verdict verdict }
{
    match verdict {
        Some(Appraisal::Trusted) => Outcome::Done,
        Some(appraisal) => Outcome::Untrusted { appraisal },
        None => Outcome::NoVerdict,
    }
}

// Converts what came of an attestation.
fn outcome_of_attestation(answer: &Result<Option<Appraisal>, StreamFault>) -> Outcome
    ensures { result ≡ outcome_of_attestation answer.now }
{
    match answer {
        Ok(verdict) => outcome_of_verdict(*verdict),
        Err(fault) => outcome_of(&Err(*fault)),
    }
}

/// Reads a configuration up to `end`, takes one seed, and answers the frames that follow.
pub fn serve_stream<S: Source, K: Sink, E: Seeds>(
    alloc: Global,
    source: &mut S,
    sink: &mut K,
    seeds: &mut E,
) -> Outcome
    ensures served { IsServed
        (outside (S.remaining source.old) (K.contents sink.old) (E.left seeds.old)
        (S.faults source.old) (K.faults sink.old) (E.faults seeds.old))
        (outside (S.remaining source.new) (K.contents sink.new) (E.left seeds.new)
        (S.faults source.new) (K.faults sink.new) (E.faults seeds.new)) result }
    ensures exact { (input : List ℕ) (end : InputEnd) → S.remaining source.old ≡ Some input
        → HasEnd IsStreamToServe input end → IsQuiet (S.faults source.old) (S.faults source.new)
        → IsQuiet (K.faults sink.old) (K.faults sink.new)
        → IsQuiet (E.faults seeds.old) (E.faults seeds.new)
        → (result ≡ Outcome.OutOfMemory) ⊎ (result ≡ outcome_of (answer_for end)) }
    ensures no_usage { result ≢ Outcome.Usage }
    ensures no_link { (line : ℕ) → result ≢ Outcome.LinkFull line }
    ensures no_capture { is_of_captures result ≡ false }
    ensures no_verdict { is_of_verdicts result ≡ false }
    ensures no_keeper { is_of_keepers result ≡ false }
    ensures read_fault { result ≡ Outcome.ReadFault
        → HasFault (S.faults source.old) (S.faults source.new) }
    ensures write_fault { result ≡ Outcome.WriteFault
        → HasFault (K.faults sink.old) (K.faults sink.new) }
{
    let answer = serve_input(alloc, source, sink, seeds);
    outcome_of(&answer)
}

/// The same in the life of the next boot of a keeper, which is asked for behind the seed.
pub fn serve_kept_stream<S: Source, K: Sink, E: Seeds, P: Keeper>(
    alloc: Global,
    source: &mut S,
    sink: &mut K,
    seeds: &mut E,
    keeper: &mut P,
) -> Outcome
    ensures served { IsServedKept (keeper_state (P.contents keeper.old) (P.faults keeper.old))
        (keeper_state (P.contents keeper.new) (P.faults keeper.new))
        (outside (S.remaining source.old) (K.contents sink.old) (E.left seeds.old)
        (S.faults source.old) (K.faults sink.old) (E.faults seeds.old))
        (outside (S.remaining source.new) (K.contents sink.new) (E.left seeds.new)
        (S.faults source.new) (K.faults sink.new) (E.faults seeds.new)) result }
    ensures exact { (input device : List ℕ) (end : InputEnd) → S.remaining source.old ≡ Some input
        → P.contents keeper.old ≡ Some device → HasEnd IsStreamToServe input end
        → IsQuiet (S.faults source.old) (S.faults source.new)
        → IsQuiet (K.faults sink.old) (K.faults sink.new)
        → IsQuiet (E.faults seeds.old) (E.faults seeds.new)
        → IsQuiet (P.faults keeper.old) (P.faults keeper.new)
        → (result ≡ Outcome.OutOfMemory)
        ⊎ (result ≡ outcome_of_kept (kept.answer_for device end)) }
    ensures unasked { is_unasked result ≡ true → keeper.new ≡ keeper.old }
    ensures no_usage { result ≢ Outcome.Usage }
    ensures no_link { (line : ℕ) → result ≢ Outcome.LinkFull line }
    ensures no_capture { is_of_captures result ≡ false }
    ensures no_verdict { is_of_verdicts result ≡ false }
    ensures read_fault { result ≡ Outcome.ReadFault
        → HasFault (S.faults source.old) (S.faults source.new) }
    ensures write_fault { result ≡ Outcome.WriteFault
        → HasFault (K.faults sink.old) (K.faults sink.new) }
{
    let answer = serve_kept_input(alloc, source, sink, seeds, keeper);
    outcome_of_kept(&answer)
}

/// Reads a configuration up to `end`, takes one seed, and drives the first requester by the frames that follow.
pub fn drive_stream<S: Source, K: Sink, E: Seeds>(
    alloc: Global,
    source: &mut S,
    sink: &mut K,
    seeds: &mut E,
) -> Outcome
    ensures driven { IsDriven
        (outside (S.remaining source.old) (K.contents sink.old) (E.left seeds.old)
        (S.faults source.old) (K.faults sink.old) (E.faults seeds.old))
        (outside (S.remaining source.new) (K.contents sink.new) (E.left seeds.new)
        (S.faults source.new) (K.faults sink.new) (E.faults seeds.new)) result }
    ensures exact { (input : List ℕ) (end : InputEnd) → S.remaining source.old ≡ Some input
        → HasEnd IsStreamToDrive input end → IsQuiet (S.faults source.old) (S.faults source.new)
        → IsQuiet (K.faults sink.old) (K.faults sink.new)
        → IsQuiet (E.faults seeds.old) (E.faults seeds.new)
        → (result ≡ Outcome.OutOfMemory) ⊎ (result ≡ outcome_of (answer_for end)) }
    ensures no_usage { result ≢ Outcome.Usage }
    ensures no_link { (line : ℕ) → result ≢ Outcome.LinkFull line }
    ensures no_capture { is_of_captures result ≡ false }
    ensures no_verdict { is_of_verdicts result ≡ false }
    ensures no_keeper { is_of_keepers result ≡ false }
    ensures read_fault { result ≡ Outcome.ReadFault
        → HasFault (S.faults source.old) (S.faults source.new) }
    ensures write_fault { result ≡ Outcome.WriteFault
        → HasFault (K.faults sink.old) (K.faults sink.new) }
{
    let answer = drive_input(alloc, source, sink, seeds);
    outcome_of(&answer)
}

/// Reads a configuration up to `end` and a policy up to `go`, takes one seed, and has the first requester measure its
/// responder over the frames that follow, up to a verdict under the policy.
pub fn attest_stream<S: Source, K: Sink, E: Seeds>(
    alloc: Global,
    source: &mut S,
    sink: &mut K,
    seeds: &mut E,
) -> Outcome
    ensures attested { IsAttested
        (outside (S.remaining source.old) (K.contents sink.old) (E.left seeds.old)
        (S.faults source.old) (K.faults sink.old) (E.faults seeds.old))
        (outside (S.remaining source.new) (K.contents sink.new) (E.left seeds.new)
        (S.faults source.new) (K.faults sink.new) (E.faults seeds.new)) result }
    ensures exact { (input : List ℕ) (end : InputEnd) → S.remaining source.old ≡ Some input
        → attesting.HasEnd input end → IsQuiet (S.faults source.old) (S.faults source.new)
        → IsQuiet (K.faults sink.old) (K.faults sink.new)
        → IsQuiet (E.faults seeds.old) (E.faults seeds.new)
        → (result ≡ Outcome.OutOfMemory) ⊎ IsAttestedFor end result }
    ensures no_usage { result ≢ Outcome.Usage }
    ensures no_link { (line : ℕ) → result ≢ Outcome.LinkFull line }
    ensures no_capture { is_of_captures result ≡ false }
    ensures no_keeper { is_of_keepers result ≡ false }
    ensures read_fault { result ≡ Outcome.ReadFault
        → HasFault (S.faults source.old) (S.faults source.new) }
    ensures write_fault { result ≡ Outcome.WriteFault
        → HasFault (K.faults sink.old) (K.faults sink.new) }
{
    let answer = attest_input(alloc, source, sink, seeds);
    outcome_of_attestation(&answer)
}
