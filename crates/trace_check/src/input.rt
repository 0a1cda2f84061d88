ghost use Rattle.std.specs.Prelude.{◌≡◌, ◌≤◌, ◌⊎◌, [], ℕ, List, None, Some, Err, true, length, is_ok, IsErrOf, OnOk};
ghost use Rattle.script_text.specs.Reading.{bad_line_in};
ghost use Rattle.script_text.specs.ScriptText.{capture_in};
ghost use Rattle.spdm_basis.specs.Stream.{HasFault, IsQuiet};
ghost use Rattle.trace_check.specs.Answers.{Finding, HasFinding, IsAnswered, IsCapture, IsExact, answer_for, answer_of, fault_of, writes_nothing};
ghost use Rattle.script_text.specs.declared.texts.script.Capture.{Capture};

use crate::{CheckAnswer, CheckFault, check_text, write_verdict};
use check_laws::Verdict;
use script_text::{LineFault, ScriptFault, TEXT_LIMIT};
use spdm_basis::{InFault, OutFault, Sink, Source, read_all};
use std::alloc::Global;

// Why a text is not a capture.
fn fault_of(fault: ScriptFault) -> CheckFault
    ensures { result ≡ fault_of fault }
{
    match fault {
        ScriptFault::Line(line, fault) => CheckFault::Line(line, fault),
        ScriptFault::TooManyEvents(line) => CheckFault::Line(line, LineFault::TooManyEvents),
        ScriptFault::OutOfMemory => CheckFault::OutOfMemory,
    }
}

// What is reported of a verdict.
fn answer_of(verdict: &Verdict) -> CheckAnswer
    ensures { result ≡ answer_of verdict.now }
{
    match verdict {
        Verdict::Conforms(_) => CheckAnswer::Conforms,
        Verdict::Differs { packet, why } => CheckAnswer::Differs {
            packet: *packet,
            why: *why,
        },
    }
}

// Writes the verdict on a text that is a capture.
fn answer_text<K: Sink>(alloc: Global, text: &[u8], sink: &mut K) -> Result<CheckAnswer, CheckFault>
    requires { length text.now ≤ TEXT_LIMIT }
    ensures answered { IsAnswered text.now (K.contents sink.old) (K.contents sink.new) result }
    ensures nothing_written { writes_nothing result ≡ true → sink.new ≡ sink.old }
    ensures no_read_fault { IsErrOf result CheckFault.ReadFault → ⊥ }
    ensures write_fault { IsErrOf result CheckFault.WriteFault
        → HasFault (K.faults sink.old) (K.faults sink.new) }
    ensures later { K.faults sink.old ≤ K.faults sink.new }
{
    match check_text(alloc, text) {
        Ok(verdict) => match write_verdict(&verdict, sink) {
            Ok(()) => Ok(answer_of(&verdict)),
            Err(OutFault::WriteFault) => Err(CheckFault::WriteFault),
        },
        Err(fault) => Err(fault_of(fault)),
    }
}

/// Reads a capture, up to the end of the source, and writes the lines of its verdict. An `Err` is told of the text that
/// is not a capture, of a call that failed, and of allocation failure.
pub fn check_input<S: Source, K: Sink>(
    alloc: Global,
    source: &mut S,
    sink: &mut K,
) -> Result<CheckAnswer, CheckFault>
    ensures answered { (text : List ℕ) → S.remaining source.old ≡ Some text
        → IsAnswered text (K.contents sink.old) (K.contents sink.new) result }
    // Where nothing fails, the answer is the one for what there is to find of the text, unless memory runs out.
    ensures exact { (text : List ℕ) (found : Finding) → S.remaining source.old ≡ Some text
        → HasFinding text found → IsQuiet (S.faults source.old) (S.faults source.new)
        → IsQuiet (K.faults sink.old) (K.faults sink.new)
        → (result ≡ Err CheckFault.OutOfMemory) ⊎ (result ≡ answer_for found) }
    // Of a capture, unless memory runs out, the verdict is exact.
    ensures exact_verdict { (text : List ℕ) (capture : Capture) → S.remaining source.old ≡ Some text
        → IsCapture text capture → IsQuiet (S.faults source.old) (S.faults source.new)
        → IsQuiet (K.faults sink.old) (K.faults sink.new)
        → (result ≡ Err CheckFault.OutOfMemory) ⊎ IsExact capture result }
    ensures complete { (text : List ℕ) → S.remaining source.old ≡ Some text
        → length text ≤ TEXT_LIMIT → bad_line_in (capture_in text) ≡ None
        → IsQuiet (S.faults source.old) (S.faults source.new)
        → IsQuiet (K.faults sink.old) (K.faults sink.new)
        → (result ≡ Err CheckFault.OutOfMemory) ⊎ (is_ok result ≡ true) }
    ensures read_to_end { OnOk result ((text : List ℕ) → S.remaining source.old ≡ Some text
        → S.remaining source.new ≡ Some []) }
    ensures nothing_written { writes_nothing result ≡ true → sink.new ≡ sink.old }
    ensures read_fault { IsErrOf result CheckFault.ReadFault
        → HasFault (S.faults source.old) (S.faults source.new) }
    ensures write_fault { IsErrOf result CheckFault.WriteFault
        → HasFault (K.faults sink.old) (K.faults sink.new) }
{
    let text = match read_all(alloc, source, TEXT_LIMIT) {
        Ok(text) => text,
        Err(InFault::ReadFault) => return Err(CheckFault::ReadFault),
        Err(InFault::TooLong) => return Err(CheckFault::TooLong),
        Err(InFault::OutOfMemory) => return Err(CheckFault::OutOfMemory),
    };
    answer_text(alloc, text.as_slice(), sink)
}
