ghost use Rattle.std.specs.Prelude.{◌≡◌, ◌≤◌, ◌<◌, ◌↔◌, ◌⊎◌, ℕ, List, [], Some, None, true, map, length, string_bytes};
ghost use Rattle.spdm_basis.specs.Stream.{GivesSome, HasFault, IsQuiet, Takes, TakesPrefix};
ghost use Rattle.spdm_explain.specs.Words.{form_of};
ghost use Rattle.spdm_explain.specs.Outcomes.{reads_whole, writes_nothing};
ghost use Rattle.spdm_explain.specs.Report.{said_of, report_text, IsBad};
ghost use Rattle.spdm_explain.specs.declared.report.Report.TheVariants.{Good, Bad};

use crate::form::Form;
use crate::report::{Report, explain};
use script_text::TEXT_LIMIT;
use spdm_basis::{InFault, Sink, Source, read_all, write_all};
use std::alloc::Global;

/// What the program came to.
#[derive(Clone, Copy, Debug, PartialEq, Eq)]
pub enum Outcome {
    /// The text is good, and that was written.
    Good,
    /// The text has a bad line, and that was written.
    Bad,
    /// The words are not one word of a form. Nothing was read.
    Usage,
    ReadFault,
    WriteFault,
    OutOfMemory,
    /// The text is longer than 4 MiB.
    TooLong,
}

/// Reads a text whose form is the one word, and writes what is reported of it. Nothing is written where memory runs
/// out.
pub fn run<S: Source, K: Sink>(
    alloc: Global,
    words: &[String],
    source: &mut S,
    sink: &mut K,
) -> Outcome
    // What is written is what the reader of the form says of the text.
    ensures good { result ≡ Outcome.Good → (form : Form) (text : List ℕ)
        → form_of (map string_bytes words.now) ≡ Some form → S.remaining source.old ≡ Some text
        → (said_of form text ≡ Good)
        × Takes (K.contents sink.old) (report_text Good) (K.contents sink.new) }
    ensures bad { result ≡ Outcome.Bad → (form : Form) (text : List ℕ)
        → form_of (map string_bytes words.now) ≡ Some form → S.remaining source.old ≡ Some text
        → IsBad (said_of form text)
        × Takes (K.contents sink.old) (report_text (said_of form text)) (K.contents sink.new) }

    ensures part { result ≡ Outcome.WriteFault → (form : Form) (text : List ℕ)
        → form_of (map string_bytes words.now) ≡ Some form → S.remaining source.old ≡ Some text
        → TakesPrefix (K.contents sink.old) (report_text (said_of form text))
        (K.contents sink.new) }
    ensures nothing_written { writes_nothing result ≡ true → sink.new ≡ sink.old }

    // What is read is a part of the text, and with some answers all of it.
    ensures read_some { GivesSome (S.remaining source.old) (S.remaining source.new) }
    ensures read_to_end { reads_whole result ≡ true → (text : List ℕ)
        → S.remaining source.old ≡ Some text → S.remaining source.new ≡ Some [] }
    ensures nothing_read { result ≡ Outcome.Usage → source.new ≡ source.old }
    ensures read_later { S.faults source.old ≤ S.faults source.new }
    ensures written_later { K.faults sink.old ≤ K.faults sink.new }

    ensures usage { (result ≡ Outcome.Usage) ↔ (form_of (map string_bytes words.now) ≡ None) }
    ensures read_fault { result ≡ Outcome.ReadFault
        → HasFault (S.faults source.old) (S.faults source.new) }
    ensures write_fault { result ≡ Outcome.WriteFault
        → HasFault (K.faults sink.old) (K.faults sink.new) }
    ensures tells { (form : Form) (text : List ℕ) → form_of (map string_bytes words.now) ≡ Some form
        → S.remaining source.old ≡ Some text
        → IsQuiet (S.faults source.old) (S.faults source.new)
        → IsQuiet (K.faults sink.old) (K.faults sink.new) → length text ≤ TEXT_LIMIT
        → ((result ≡ Outcome.Good) ⊎ (result ≡ Outcome.Bad)) ⊎ (result ≡ Outcome.OutOfMemory) }
    ensures too_long { result ≡ Outcome.TooLong → (text : List ℕ)
        → S.remaining source.old ≡ Some text → TEXT_LIMIT < length text }
{
    let Some(form) = form_of(words) else {
        return Outcome::Usage;
    };
    let text = match read_all(alloc, source, TEXT_LIMIT) {
        Ok(text) => text,
        Err(InFault::ReadFault) => return Outcome::ReadFault,
        Err(InFault::TooLong) => return Outcome::TooLong,
        Err(InFault::OutOfMemory) => return Outcome::OutOfMemory,
    };
    let report = explain(alloc, form, text.as_slice());
    let outcome = match report {
        Report::Good => Outcome::Good,
        Report::Bad { .. } => Outcome::Bad,
        Report::OutOfMemory => return Outcome::OutOfMemory,
    };
    let Ok(told) = report.text(alloc) else {
        return Outcome::OutOfMemory;
    };
    match write_all(sink, told.as_bytes()) {
        Ok(()) => outcome,
        Err(_) => Outcome::WriteFault,
    }
}

// The form that the words name.
fn form_of(words: &[String]) -> Option<Form>
    ensures { result ≡ form_of (map string_bytes words.now) }
{
    match words {
        [word] => Form::named(word.as_str()),
        _ => None,
    }
}
