ghost use Rattle.std.specs.Prelude.{◌≡◌, ◌≤◌, ℕ, List, Err, None, Some, IfOk, IsErrOf, OnErr, OnOk};
ghost use Rattle.link_world.specs.Worlds.{StandsFor};
ghost use Rattle.script_text.specs.Generator.{generated};
ghost use Rattle.script_text.specs.declared.texts.faults.LineFault.{LineFault};
ghost use Rattle.script_laws.specs.Scripts.{full_line, last_world};
ghost use Rattle.spdm_basis.specs.Stream.{HasFault, Takes, TakesPrefix};
ghost use Rattle.spdm_command.specs.Answer.{generated_text, summary_of};
ghost use Rattle.world_machine.specs.Totals.{totals_of};
ghost use Rattle.world_machine.specs.World as machine;

use crate::output::TextFault;
use link_world::World;
use script_run::{RunFault, new_world, run_events};
use script_text::{MOST_GENERATED, generate, line_summary};
use spdm_basis::{Line, NullSink, OutFault, Sink, write_all};
use std::alloc::Global;

/// Runs the script generated from a seed and a count of events, writes one line of totals in place of its trace, and
/// returns its final world. After `LinkFull` nothing was written.
pub fn summarize<K: Sink>(
    alloc: Global,
    seed: u64,
    count: u32,
    sink: &mut K,
) -> Result<World, TextFault>
    requires { count ≤ MOST_GENERATED }
    ensures whole { OnOk result (Takes (K.contents sink.old)
        (summary_of seed count (totals_of (last_world (generated seed count))))
        (K.contents sink.new)) }
    ensures last { IfOk result (λ world. StandsFor world (last_world (generated seed count))) }
    ensures room { OnOk result (full_line (generated seed count) ≡ None) }
    ensures prefix { TakesPrefix (K.contents sink.old) (generated_text
        (full_line (generated seed count))
        (summary_of seed count (totals_of (last_world (generated seed count)))))
        (K.contents sink.new) }
    ensures link_full { (line : ℕ) → result ≡ Err (TextFault.LinkFull line)
        → full_line (generated seed count) ≡ Some line }
    ensures nothing { (line : ℕ) → result ≡ Err (TextFault.LinkFull line) → sink.new ≡ sink.old }
    ensures no_line { (line : ℕ) (f : LineFault) → result ≡ Err (TextFault.Line line f) → ⊥ }
    ensures write_fault { IsErrOf result TextFault.WriteFault
        → HasFault (K.faults sink.old) (K.faults sink.new) }
    ensures later { K.faults sink.old ≤ K.faults sink.new }
{
    let Ok(script) = generate(alloc, seed, count) else {
        return Err(TextFault::OutOfMemory);
    };
    let Ok(mut world) = new_world(alloc, &script) else {
        return Err(TextFault::OutOfMemory);
    };
    match run_events(&mut world, script.events.as_slice(), &mut NullSink) {
        Ok(()) => {}
        Err(RunFault::LinkFull(line)) => return Err(TextFault::LinkFull(line)),
        Err(RunFault::WriteFault) => return Err(TextFault::WriteFault),
        Err(RunFault::OutOfMemory) => return Err(TextFault::OutOfMemory),
    }
    match write_summary(seed, count, &world, sink) {
        Ok(()) => Ok(world),
        Err(OutFault::WriteFault) => Err(TextFault::WriteFault),
    }
}

// Writes the summary line of a world.
fn write_summary<K: Sink>(
    seed: u64,
    count: u32,
    world: &World,
    sink: &mut K,
) -> Result<(), OutFault>
    ensures whole { (w : machine.World) → StandsFor world.now w
        → OnOk result (Takes (K.contents sink.old) (summary_of seed count (totals_of w))
        (K.contents sink.new)) }
    ensures prefix { (w : machine.World) → StandsFor world.now w
        → OnErr result (TakesPrefix (K.contents sink.old) (summary_of seed count (totals_of w))
        (K.contents sink.new)) }
    ensures fault { OnErr result (HasFault (K.faults sink.old) (K.faults sink.new)) }
    ensures later { K.faults sink.old ≤ K.faults sink.new }
{
    let totals = world.totals();
    let mut line = Line::new();
    line_summary(
        seed,
        count,
        totals.packets,
        totals.taken,
        totals.live,
        &mut line,
    );
    write_all(sink, line.as_slice())
}
