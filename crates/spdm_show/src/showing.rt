ghost use Rattle.std.specs.Prelude.{◌≡◌, ◌≤◌, List, ℕ, Ok, Err, length, is_ok, IfErr, IsErrOf, OnErr, OnOk, true};
ghost use Rattle.script_text.specs.ShownText.{shown_in};
ghost use Rattle.script_text.specs.declared.texts.faults.LineFault.{LineFault};
ghost use Rattle.spdm_basis.specs.Stream.{HasFault, Takes, TakesPrefix};
ghost use Rattle.spdm_show.specs.Shown.{IsBad, lines_of, shown_text, told_of};

use crate::line::line_of;
use script_text::{LineFault, ScriptFault, Shown, TEXT_LIMIT, parse_shown};
use spdm_basis::{Line, OutFault, Sink, write_all};
use std::alloc::Global;
use thiserror::Error;

/// Why not all messages of a text were shown.
#[derive(Clone, Copy, Debug, PartialEq, Eq, Error)]
pub enum ShowFault {
    /// The first bad line, counted from 1, and its first fault. Nothing was written.
    #[error("line {0}: {1}")]
    Line(u32, LineFault),
    /// Writing failed, after a part of the lines.
    #[error("writing failed")]
    WriteFault,
    /// Out of memory. Nothing was written.
    #[error("out of memory")]
    OutOfMemory,
}

impl From<ScriptFault> for ShowFault {
    ghost from_gives = { λ given error. error ≡ told_of given };

    fn from(fault: ScriptFault) -> ShowFault {
        match fault {
            ScriptFault::Line(line, fault) => ShowFault::Line(line, fault),
            ScriptFault::TooManyEvents(line) => ShowFault::Line(line, LineFault::TooManyEvents),
            ScriptFault::OutOfMemory => ShowFault::OutOfMemory,
        }
    }
}

#[tactic(auto, unfolding(crate::specs::Shown::shown_text))]
/// Writes a line for each message of a text of at most 4 MiB.
pub fn show<K: Sink>(alloc: Global, text: &[u8], sink: &mut K) -> Result<(), ShowFault>
    requires { length text.now ≤ TEXT_LIMIT }
    ensures whole { OnOk result (Takes (K.contents sink.old) (shown_text text.now)
        (K.contents sink.new)) }
    ensures prefix { TakesPrefix (K.contents sink.old) (shown_text text.now)
        (K.contents sink.new) }
    ensures read { OnOk result (is_ok (shown_in text.now) ≡ true) }
    ensures bad_line { (line : ℕ) (f : LineFault) → result ≡ Err (ShowFault.Line line f)
        → IsBad (shown_in text.now) (ShowFault.Line line f) }
    ensures write_fault { IsErrOf result ShowFault.WriteFault
        → HasFault (K.faults sink.old) (K.faults sink.new) }
    ensures readable { IsErrOf result ShowFault.WriteFault → is_ok (shown_in text.now) ≡ true }
    ensures nothing_written { (line : ℕ) (f : LineFault) → result ≡ Err (ShowFault.Line line f)
        → sink.new ≡ sink.old }
    ensures no_memory { IsErrOf result ShowFault.OutOfMemory → sink.new ≡ sink.old }
    ensures later { K.faults sink.old ≤ K.faults sink.new }
{
    let shown = parse_shown(alloc, text)?;
    write_lines(shown.as_slice(), sink).map_err(|_| ShowFault::WriteFault)
}

// Writes the lines of messages.
fn write_lines<K: Sink>(shown: &[Shown], sink: &mut K) -> Result<(), OutFault>
    ensures whole { OnOk result (Takes (K.contents sink.old) (lines_of shown.now)
        (K.contents sink.new)) }
    ensures prefix { TakesPrefix (K.contents sink.old) (lines_of shown.now)
        (K.contents sink.new) }
    ensures fault { OnErr result (HasFault (K.faults sink.old) (K.faults sink.new)) }
    ensures later { K.faults sink.old ≤ K.faults sink.new }
{
    let mut line = Line::new();
    for message in shown {
        line_of(message, &mut line);
        write_all(sink, line.as_slice())?;
    }
    Ok(())
}
