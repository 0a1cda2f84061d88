ghost use Rattle.std.specs.Prelude.{◌≡◌, ◌+◌, ◌^◌, ◌<◌, ◌⊎◌, ℕ, List, Option, Some, None, IfOk, IfErr, OnOk, length};
ghost use Rattle.script_text.specs.Lines.{lines_of};
ghost use Rattle.script_text.specs.Reading.{line_fault, after_line, told_of, read_lines, IsReading};
ghost use Rattle.script_text.specs.Tests.{IsAnswerTo};
ghost use Rattle.script_text.specs.declared.texts.faults.LineFault.{LineFault};
ghost use Rattle.script_text.specs.declared.texts.faults.LineFault.TheVariants.{Incomplete};
ghost use Rattle.script_text.specs.declared.texts.faults.LineError.TheVariants.{Fault, NoMemory};

use crate::reading::lines::{is_passed_over, is_too_long, next_line};
use crate::texts::faults::{LineError, LineFault, ScriptFault};
use std::alloc::Global;

/// What takes the lines of a text one by one.
pub trait LineReader: Drop {
    /// What all lines together are.
    type Whole;

    /// The first fault of a line that is neither empty nor a comment.
    ghost fault: { Self → List ℕ → Option LineFault };

    /// What is known after such a line of this number.
    ghost after: { Self → ℕ → List ℕ → Self };

    /// What the lines are, where nothing is missing.
    ghost whole: { Self → Option Self.Whole };

    /// Takes a line that is neither empty nor a comment.
    fn take(&mut self, alloc: Global, number: u32, line: &[u8]) -> Result<(), LineError>
        ensures answer { IsAnswerTo (fault self.old line.now) result }
        ensures after { OnOk result (self.new ≡ after self.old number line.now) };

    /// Ends the text.
    fn finish(self, alloc: Global) -> Result<Self::Whole, LineError>
        ensures ok { IfOk result (λ v. whole self ≡ Some v) }
        ensures missing { IfErr result (λ e. (e ≡ NoMemory)
            ⊎ ((e ≡ Fault Incomplete) × (whole self ≡ None))) };
}

// Takes a line of any kind.
fn take_line<R: LineReader>(
    alloc: Global,
    reader: &mut R,
    number: u32,
    line: &[u8],
) -> Result<(), LineError>
    ensures answer { IsAnswerTo (line_fault R.fault reader.old line.now) result }
    ensures after { OnOk result (reader.new ≡ after_line R.after reader.old number line.now) }
{
    if is_too_long(line) {
        return Err(LineError::Fault(LineFault::LineTooLong));
    }
    if is_passed_over(line) {
        return Ok(());
    }
    reader.take(alloc, number, line)
}

/// The error of a line, as it is told of a text.
pub fn told(number: u32, error: LineError) -> ScriptFault
    ensures { result ≡ told_of number error }
{
    match error {
        LineError::Fault(LineFault::TooManyEvents) => ScriptFault::TooManyEvents(number),
        LineError::Fault(fault) => ScriptFault::Line(number, fault),
        LineError::NoMemory => ScriptFault::OutOfMemory,
    }
}

/// Reads a text whose first line has this number.
pub fn read_text<R: LineReader>(
    alloc: Global,
    reader: R,
    first: u32,
    text: &[u8],
) -> Result<R::Whole, ScriptFault>
    requires { first + length text.now < 2 ^ 32 }
    ensures { IsReading (read_lines R.fault R.after R.whole first reader
        (lines_of text.now)) result }
{
    let mut reader = reader;
    let mut number = first;
    let mut rest = text;
    while let Some((line, behind)) = next_line(rest) {
        if let Err(error) = take_line(alloc, &mut reader, number, line) {
            return Err(told(number, error));
        }
        number += 1;
        rest = behind;
    }
    reader.finish(alloc).map_err(|error| told(number, error))
}
