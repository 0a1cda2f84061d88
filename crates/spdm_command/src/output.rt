ghost use Rattle.std.specs.Prelude.{◌≡◌, ◌≤◌, ℕ, Err, None, Some, true, length, IsErrOf, OnErr, OnOk};
ghost use Rattle.script_text.specs.declared.texts.faults.LineFault.{LineFault};
ghost use Rattle.spdm_basis.specs.Stream.{HasFault, Takes, TakesPrefix};
ghost use Rattle.spdm_command.specs.Answer.{IsLeft, bad_line_of, full_of, output_of, runs_script};
ghost use Rattle.spdm_command.specs.Words.{IsTextInRange};
ghost use Rattle.spdm_command.specs.declared.words.Command.TheVariants.{Text};
ghost use Rattle.spdm_command.specs.declared.words.TextCommand.TheVariants.{Show};

use crate::generated::summarize;
use crate::scripts::{live, run};
use crate::words::TextCommand;
use link_world::World;
use script_text::{LineFault, TEXT_LIMIT};
use spdm_basis::Sink;
use spdm_show::{ShowFault, show};
use std::alloc::Global;
use thiserror::Error;

/// Why a command did not write its whole output for a text.
#[derive(Clone, Copy, Debug, PartialEq, Eq, Error)]
pub enum TextFault {
    /// The first invalid line, counted from 1, and its first fault. Nothing was written.
    #[error("line {0}: {1}")]
    Line(u32, LineFault),
    /// The event on this line sends a packet for which the link has no room. All output before the packet's line was
    /// written.
    #[error("line {0}: a full link")]
    LinkFull(u32),
    /// Writing failed, possibly after part of the output.
    #[error("writing failed")]
    WriteFault,
    /// Out of memory, possibly after part of the output.
    #[error("out of memory")]
    OutOfMemory,
}

/// Writes the output of a command for a text of at most 4 MiB. A script leaves its final world in `left`, and lives that
/// of the last.
pub fn write_output<K: Sink>(
    alloc: Global,
    command: TextCommand,
    text: &[u8],
    sink: &mut K,
    left: &mut Option<World>,
) -> Result<(), TextFault>
    requires text { length text.now ≤ TEXT_LIMIT }
    requires range { IsTextInRange command }
    ensures whole { OnOk result (Takes (K.contents sink.old) (output_of command text.now)
        (K.contents sink.new)) }
    ensures last { OnOk result (IsLeft (Some (Text command)) text.now left.old left.new) }
    ensures as_before { OnErr result (left.new ≡ left.old) }
    ensures prefix { TakesPrefix (K.contents sink.old) (output_of command text.now)
        (K.contents sink.new) }
    ensures nothing_written { (line : ℕ) (f : LineFault) → result ≡ Err (TextFault.Line line f)
        → sink.new ≡ sink.old }
    ensures bad_line { (line : ℕ) (f : LineFault) → result ≡ Err (TextFault.Line line f)
        → bad_line_of command text.now ≡ Some (record { line = line; fault = f }) }
    ensures good { OnOk result ((bad_line_of command text.now ≡ None)
        × (full_of command text.now ≡ None)) }
    ensures link_full { (line : ℕ) → result ≡ Err (TextFault.LinkFull line)
        → (bad_line_of command text.now ≡ None) × (full_of command text.now ≡ Some line)
        × Takes (K.contents sink.old) (output_of command text.now) (K.contents sink.new) }
    ensures runs { (line : ℕ) → result ≡ Err (TextFault.LinkFull line)
        → runs_script (Some (Text command)) ≡ true }
    ensures readable { IsErrOf result TextFault.WriteFault → bad_line_of command text.now ≡ None }
    ensures write_fault { IsErrOf result TextFault.WriteFault
        → HasFault (K.faults sink.old) (K.faults sink.new) }
    ensures later { K.faults sink.old ≤ K.faults sink.new }
{
    match command {
        TextCommand::Run => match run(alloc, text, sink) {
            Ok(world) => {
                *left = Some(world);
                Ok(())
            }
            Err(fault) => Err(fault),
        },
        TextCommand::Lives => match live(alloc, text, sink) {
            Ok(lived) => {
                *left = Some(lived);
                Ok(())
            }
            Err(why) => Err(why),
        },
        TextCommand::Show => show_messages(alloc, text, sink),
        TextCommand::Gen { seed, count } => match summarize(alloc, seed, count, sink) {
            Ok(last) => {
                *left = Some(last);
                Ok(())
            }
            Err(cause) => Err(cause),
        },
    }
}

// Shows the messages of a text of at most 4 MiB.
fn show_messages<K: Sink>(alloc: Global, text: &[u8], sink: &mut K) -> Result<(), TextFault>
    requires { length text.now ≤ TEXT_LIMIT }
    ensures whole { OnOk result (Takes (K.contents sink.old) (output_of Show text.now)
        (K.contents sink.new)) }
    ensures prefix { TakesPrefix (K.contents sink.old) (output_of Show text.now)
        (K.contents sink.new) }
    ensures nothing_written { (line : ℕ) (f : LineFault) → result ≡ Err (TextFault.Line line f)
        → sink.new ≡ sink.old }
    ensures bad_line { (line : ℕ) (f : LineFault) → result ≡ Err (TextFault.Line line f)
        → bad_line_of Show text.now ≡ Some (record { line = line; fault = f }) }
    ensures good { OnOk result (bad_line_of Show text.now ≡ None) }
    ensures room { (line : ℕ) → result ≡ Err (TextFault.LinkFull line) → ⊥ }
    ensures readable { IsErrOf result TextFault.WriteFault → bad_line_of Show text.now ≡ None }
    ensures write_fault { IsErrOf result TextFault.WriteFault
        → HasFault (K.faults sink.old) (K.faults sink.new) }
    ensures later { K.faults sink.old ≤ K.faults sink.new }
{
    match show(alloc, text, sink) {
        Ok(()) => Ok(()),
        Err(ShowFault::Line(line, fault)) => Err(TextFault::Line(line, fault)),
        Err(ShowFault::WriteFault) => Err(TextFault::WriteFault),
        Err(ShowFault::OutOfMemory) => Err(TextFault::OutOfMemory),
    }
}
