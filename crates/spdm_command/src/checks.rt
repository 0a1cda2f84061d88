ghost use Rattle.std.specs.Prelude.{◌≡◌, ◌≢◌, ◌≤◌, ◌⊎◌, [], ℕ, List, None, Some, true, false, length};
ghost use Rattle.script_text.specs.Reading.{bad_line_in};
ghost use Rattle.script_text.specs.ScriptText.{capture_in};
ghost use Rattle.script_text.specs.declared.texts.script.Capture.{Capture};
ghost use Rattle.spdm_basis.specs.Stream.{HasFault, IsQuiet};
ghost use Rattle.trace_check.specs.Answers.{Finding, HasFinding, IsCapture};
ghost use Rattle.spdm_command.specs.Answer.{text_limit, writes_nothing};
ghost use Rattle.spdm_command.specs.Checks.{IsChecked, IsJudgedExactly, is_judged, outcome_for, outcome_of};
ghost use Rattle.spdm_command.specs.Streams.{is_of_keepers, is_of_streams, is_of_verdicts};

use crate::outcome::Outcome;
use spdm_basis::{Sink, Source};
use std::alloc::Global;
use trace_check::{CheckAnswer, CheckFault, check_input};

// Converts the outcome of a capture to the command's.
fn outcome_of(answer: &Result<CheckAnswer, CheckFault>) -> Outcome
    ensures { result ≡ outcome_of answer.now }
{
    match answer {
        Ok(CheckAnswer::Conforms) => Outcome::Done,
        Ok(CheckAnswer::Differs { packet, why }) => Outcome::Differs {
            packet: *packet,
            why: *why,
        },
        Err(CheckFault::Line(line, fault)) => Outcome::BadScript {
            line: *line,
            fault: *fault,
        },
        Err(CheckFault::TooLong) => Outcome::TooLong,
        Err(CheckFault::ReadFault) => Outcome::ReadFault,
        Err(CheckFault::WriteFault) => Outcome::WriteFault,
        Err(CheckFault::OutOfMemory) => Outcome::OutOfMemory,
    }
}

/// Reads a capture up to the end of the source, and writes its verdict.
pub fn check_capture<S: Source, K: Sink>(alloc: Global, source: &mut S, sink: &mut K) -> Outcome
    ensures checked { (text : List ℕ) → S.remaining source.old ≡ Some text
        → IsChecked text (K.contents sink.old) (K.contents sink.new) result }
    ensures exact { (text : List ℕ) (found : Finding) → S.remaining source.old ≡ Some text
        → HasFinding text found → IsQuiet (S.faults source.old) (S.faults source.new)
        → IsQuiet (K.faults sink.old) (K.faults sink.new)
        → (result ≡ Outcome.OutOfMemory) ⊎ (result ≡ outcome_for found) }
    ensures exact_verdict { (text : List ℕ) (capture : Capture) → S.remaining source.old ≡ Some text
        → IsCapture text capture → IsQuiet (S.faults source.old) (S.faults source.new)
        → IsQuiet (K.faults sink.old) (K.faults sink.new)
        → (result ≡ Outcome.OutOfMemory) ⊎ IsJudgedExactly capture result }
    ensures complete { (text : List ℕ) → S.remaining source.old ≡ Some text
        → length text ≤ text_limit → bad_line_in (capture_in text) ≡ None
        → IsQuiet (S.faults source.old) (S.faults source.new)
        → IsQuiet (K.faults sink.old) (K.faults sink.new)
        → (result ≡ Outcome.OutOfMemory) ⊎ (is_judged result ≡ true) }
    ensures read_to_end { is_judged result ≡ true → (text : List ℕ)
        → S.remaining source.old ≡ Some text → S.remaining source.new ≡ Some [] }
    ensures nothing_written { writes_nothing result ≡ true → sink.new ≡ sink.old }
    ensures no_memory { result ≡ Outcome.OutOfMemory → sink.new ≡ sink.old }
    ensures no_usage { result ≢ Outcome.Usage }
    ensures no_link { (line : ℕ) → result ≢ Outcome.LinkFull line }
    ensures no_stream { is_of_streams result ≡ false }
    ensures no_keeper { is_of_keepers result ≡ false }
    ensures no_verdict { is_of_verdicts result ≡ false }
    ensures read_fault { result ≡ Outcome.ReadFault
        → HasFault (S.faults source.old) (S.faults source.new) }
    ensures write_fault { result ≡ Outcome.WriteFault
        → HasFault (K.faults sink.old) (K.faults sink.new) }
{
    let answer = check_input(alloc, source, sink);
    outcome_of(&answer)
}
