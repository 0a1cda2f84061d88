ghost use Rattle.std.specs.Prelude.{◌≡◌, ◌≤◌, ◌-◌, ◌^◌, ℕ, Err, None, Some, IfOk, IsErrOf, OnOk};
ghost use Rattle.link_world.specs.Worlds.{StandsFor};
ghost use Rattle.script_laws.specs.Scripts.{full_line, last_world, set_up, written_in};
ghost use Rattle.script_run.specs.Lives.{life_full, life_text, life_world, set_up_in};
ghost use Rattle.script_text.specs.Sound.{IsSoundConfig};
ghost use Rattle.spdm_basis.specs.Stream.{HasFault, Takes, TakesPrefix};
ghost use Rattle.world_machine.specs.World as machine;

use crate::RunFault;
use crate::events::run_events;
use link_world::{World, WorldFault};
use script_text::{Entry, Script, ScriptConfig};
use spdm_basis::{OutFault, OutOfMemory, Sink};
use std::alloc::Global;

// The world that a life begins with, of a configuration in range: no endpoint is rejected.
fn first_world(alloc: Global, config: &ScriptConfig, boot: u32) -> Result<World, OutOfMemory>
    requires sound { IsSoundConfig config.now }
    requires boot { boot ≤ 2 ^ 24 - 2 }
    ensures { IfOk result (λ world. StandsFor world
        (machine.new_world (set_up_in config.now boot))) }
{
    match World::resume(alloc, config, boot) {
        Ok(world) => Ok(world),
        Err(WorldFault::Responder(_)) => unreachable!(),
        Err(WorldFault::Requester(_)) => unreachable!(),
        Err(WorldFault::OutOfMemory) => Err(OutOfMemory),
    }
}

/// The initial world of a script whose configuration is in range.
pub fn new_world(alloc: Global, script: &Script) -> Result<World, OutOfMemory>
    requires { IsSoundConfig script.now.config }
    ensures { IfOk result (λ world. StandsFor world (machine.new_world (set_up script.now))) }
{
    match first_world(alloc, &script.config, 0) {
        Ok(world) => Ok(world),
        Err(OutOfMemory) => Err(OutOfMemory),
    }
}

/// Runs the events of one life of the ends of a configuration in range, and returns its final world.
pub(crate) fn run_life<K: Sink>(
    alloc: Global,
    config: &ScriptConfig,
    boot: u32,
    events: &[Entry],
    sink: &mut K,
) -> Result<World, RunFault>
    requires sound { IsSoundConfig config.now }
    requires boot { boot ≤ 2 ^ 24 - 2 }
    ensures whole { OnOk result (Takes (K.contents sink.old) (life_text config.now boot events.now)
        (K.contents sink.new)) }
    ensures last { IfOk result (λ world. StandsFor world (life_world config.now boot events.now)) }
    ensures room { OnOk result (life_full config.now boot events.now ≡ None) }
    ensures prefix { TakesPrefix (K.contents sink.old) (life_text config.now boot events.now)
        (K.contents sink.new) }
    ensures link_full { (line : ℕ) → result ≡ Err (RunFault.LinkFull line)
        → (life_full config.now boot events.now ≡ Some line)
        × Takes (K.contents sink.old) (life_text config.now boot events.now)
        (K.contents sink.new) }
    ensures write_fault { IsErrOf result RunFault.WriteFault
        → HasFault (K.faults sink.old) (K.faults sink.new) }
    ensures later { K.faults sink.old ≤ K.faults sink.new }
{
    let Ok(mut world) = first_world(alloc, config, boot) else {
        return Err(RunFault::OutOfMemory);
    };
    match world.start(sink) {
        Ok(()) => {}
        Err(OutFault::WriteFault) => return Err(RunFault::WriteFault),
    }
    match run_events(&mut world, events, sink) {
        Ok(()) => Ok(world),
        Err(fault) => Err(fault),
    }
}

/// Runs a script whose configuration is in range, writes its trace, and returns its final world.
pub fn run_script<K: Sink>(alloc: Global, script: &Script, sink: &mut K) -> Result<World, RunFault>
    requires { IsSoundConfig script.now.config }
    ensures whole { OnOk result (Takes (K.contents sink.old) (written_in script.now)
        (K.contents sink.new)) }
    ensures last { IfOk result (λ world. StandsFor world (last_world script.now)) }
    ensures room { OnOk result (full_line script.now ≡ None) }
    ensures prefix { TakesPrefix (K.contents sink.old) (written_in script.now)
        (K.contents sink.new) }
    ensures link_full { (line : ℕ) → result ≡ Err (RunFault.LinkFull line)
        → (full_line script.now ≡ Some line)
        × Takes (K.contents sink.old) (written_in script.now) (K.contents sink.new) }
    ensures write_fault { IsErrOf result RunFault.WriteFault
        → HasFault (K.faults sink.old) (K.faults sink.new) }
    ensures later { K.faults sink.old ≤ K.faults sink.new }
{
    match run_life(alloc, &script.config, 0, script.events.as_slice(), sink) {
        Ok(world) => Ok(world),
        Err(fault) => Err(fault),
    }
}
