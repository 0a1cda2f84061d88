ghost use Rattle.std.specs.Prelude.{◌≡◌, ◌≤◌, ℕ, Err, None, IsErrOf, OnOk};
ghost use Rattle.link_world.specs.Worlds.{StandsFor};
ghost use Rattle.script_laws.specs.Scripts.{entries_in, full_from};
ghost use Rattle.script_run.specs.Going.{IsFullAt, text_from};
ghost use Rattle.spdm_basis.specs.Stream.{HasFault, Takes, TakesPrefix};
ghost use Rattle.world_machine.specs.Trace.{world_from};
ghost use Rattle.world_machine.specs.World as machine;

use crate::RunFault;
use link_world::{StepFault, World};
use script_text::Entry;
use spdm_basis::Sink;

/// Runs events in a world, in order, and writes their lines.
pub fn run_events<K: Sink>(
    world: &mut World,
    events: &[Entry],
    sink: &mut K,
) -> Result<(), RunFault>
    ensures whole { (w : machine.World) → StandsFor world.old w
        → OnOk result (Takes (K.contents sink.old) (text_from w events.now) (K.contents sink.new)) }
    ensures last { (w : machine.World) → StandsFor world.old w
        → OnOk result (StandsFor world.new (world_from w (entries_in events.now))) }
    ensures room { (w : machine.World) → StandsFor world.old w
        → OnOk result (full_from w (entries_in events.now) ≡ None) }
    ensures prefix { (w : machine.World) → StandsFor world.old w
        → TakesPrefix (K.contents sink.old) (text_from w events.now) (K.contents sink.new) }
    ensures link_full { (w : machine.World) → StandsFor world.old w → (line : ℕ)
        → result ≡ Err (RunFault.LinkFull line) → IsFullAt w events.now line (K.contents sink.old)
        (K.contents sink.new) }
    ensures write_fault { IsErrOf result RunFault.WriteFault
        → HasFault (K.faults sink.old) (K.faults sink.new) }
    ensures later { K.faults sink.old ≤ K.faults sink.new }
{
    for entry in events {
        match world.step(entry.line, &entry.event, sink) {
            Ok(()) => {}
            Err(StepFault::LinkFull) => return Err(RunFault::LinkFull(entry.line)),
            Err(StepFault::WriteFault) => return Err(RunFault::WriteFault),
            Err(StepFault::OutOfMemory) => return Err(RunFault::OutOfMemory),
        }
    }
    Ok(())
}
