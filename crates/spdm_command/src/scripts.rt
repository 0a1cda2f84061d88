ghost use Rattle.std.specs.Prelude.{◌≡◌, ◌≤◌, ℕ, Err, None, Some, length, IfOk, IsErrOf, OnOk};
ghost use Rattle.script_text.specs.ScriptText.{lives_in, script_in};
ghost use Rattle.script_text.specs.declared.texts.faults.LineFault.{LineFault};
ghost use Rattle.spdm_basis.specs.Stream.{HasFault, Takes, TakesPrefix};
ghost use Rattle.spdm_command.specs.Answer.{IsLastOfLives, IsLastWorld, bad_line_of, full_of, output_of};
ghost use Rattle.spdm_command.specs.declared.words.TextCommand.TheVariants.{Lives, Run};

use crate::output::TextFault;
use link_world::World;
use script_run::{RunFault, run_lives, run_script};
use script_text::{LineFault, ScriptFault, TEXT_LIMIT, parse_lives, parse_script};
use spdm_basis::Sink;
use std::alloc::Global;

/// Runs a script of at most 4 MiB, and returns its final world.
pub fn run<K: Sink>(alloc: Global, text: &[u8], sink: &mut K) -> Result<World, TextFault>
    requires { length text.now ≤ TEXT_LIMIT }
    ensures whole { OnOk result (Takes (K.contents sink.old) (output_of Run text.now)
        (K.contents sink.new)) }
    ensures last { IfOk result (λ world. IsLastWorld (script_in text.now) world) }
    ensures prefix { TakesPrefix (K.contents sink.old) (output_of Run text.now)
        (K.contents sink.new) }
    ensures nothing_written { (line : ℕ) (f : LineFault) → result ≡ Err (TextFault.Line line f)
        → sink.new ≡ sink.old }
    ensures bad_line { (line : ℕ) (f : LineFault) → result ≡ Err (TextFault.Line line f)
        → bad_line_of Run text.now ≡ Some (record { line = line; fault = f }) }
    ensures good { OnOk result ((bad_line_of Run text.now ≡ None) × (full_of Run text.now ≡ None)) }
    ensures link_full { (line : ℕ) → result ≡ Err (TextFault.LinkFull line)
        → (bad_line_of Run text.now ≡ None) × (full_of Run text.now ≡ Some line)
        × Takes (K.contents sink.old) (output_of Run text.now) (K.contents sink.new) }
    ensures readable { IsErrOf result TextFault.WriteFault → bad_line_of Run text.now ≡ None }
    ensures write_fault { IsErrOf result TextFault.WriteFault
        → HasFault (K.faults sink.old) (K.faults sink.new) }
    ensures later { K.faults sink.old ≤ K.faults sink.new }
{
    let script = match parse_script(alloc, text) {
        Ok(script) => script,
        Err(ScriptFault::Line(line, fault)) => return Err(TextFault::Line(line, fault)),
        Err(ScriptFault::TooManyEvents(line)) => {
            return Err(TextFault::Line(line, LineFault::TooManyEvents));
        }
        Err(ScriptFault::OutOfMemory) => return Err(TextFault::OutOfMemory),
    };
    match run_script(alloc, &script, sink) {
        Ok(world) => Ok(world),
        Err(RunFault::LinkFull(line)) => Err(TextFault::LinkFull(line)),
        Err(RunFault::WriteFault) => Err(TextFault::WriteFault),
        Err(RunFault::OutOfMemory) => Err(TextFault::OutOfMemory),
    }
}

/// Runs lives of at most 4 MiB, and returns the final world of the last.
pub fn live<K: Sink>(alloc: Global, text: &[u8], sink: &mut K) -> Result<World, TextFault>
    requires { length text.now ≤ TEXT_LIMIT }
    ensures whole { OnOk result (Takes (K.contents sink.old) (output_of Lives text.now)
        (K.contents sink.new)) }
    ensures last { IfOk result (λ world. IsLastOfLives (lives_in text.now) world) }
    ensures prefix { TakesPrefix (K.contents sink.old) (output_of Lives text.now)
        (K.contents sink.new) }
    ensures nothing_written { (line : ℕ) (f : LineFault) → result ≡ Err (TextFault.Line line f)
        → sink.new ≡ sink.old }
    ensures bad_line { (line : ℕ) (f : LineFault) → result ≡ Err (TextFault.Line line f)
        → bad_line_of Lives text.now ≡ Some (record { line = line; fault = f }) }
    ensures good { OnOk result ((bad_line_of Lives text.now ≡ None)
        × (full_of Lives text.now ≡ None)) }
    ensures link_full { (line : ℕ) → result ≡ Err (TextFault.LinkFull line)
        → (bad_line_of Lives text.now ≡ None) × (full_of Lives text.now ≡ Some line)
        × Takes (K.contents sink.old) (output_of Lives text.now) (K.contents sink.new) }
    ensures readable { IsErrOf result TextFault.WriteFault → bad_line_of Lives text.now ≡ None }
    ensures write_fault { IsErrOf result TextFault.WriteFault
        → HasFault (K.faults sink.old) (K.faults sink.new) }
    ensures later { K.faults sink.old ≤ K.faults sink.new }
{
    let lives = match parse_lives(alloc, text) {
        Ok(lives) => lives,
        Err(ScriptFault::Line(line, fault)) => return Err(TextFault::Line(line, fault)),
        Err(ScriptFault::TooManyEvents(line)) => {
            return Err(TextFault::Line(line, LineFault::TooManyEvents));
        }
        Err(ScriptFault::OutOfMemory) => return Err(TextFault::OutOfMemory),
    };
    match run_lives(alloc, &lives, sink) {
        Ok(world) => Ok(world),
        Err(RunFault::LinkFull(line)) => Err(TextFault::LinkFull(line)),
        Err(RunFault::WriteFault) => Err(TextFault::WriteFault),
        Err(RunFault::OutOfMemory) => Err(TextFault::OutOfMemory),
    }
}
