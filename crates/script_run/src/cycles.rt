ghost use Rattle.std.specs.Prelude.{◌≡◌, ◌<◌, ◌≤◌, ◌-◌, ◌^◌, ◌++◌, ℕ, Err, None, Some, length, IfErr, IfOk, IsErrOf, OnErr, OnOk};
ghost use Rattle.link_world.specs.Worlds.{StandsFor};
ghost use Rattle.script_run.specs.Lives.{cycle_lines, full_in_lives, last_of_lives, life_full, life_text, life_world, written_lives};
ghost use Rattle.script_text.specs.Sound.{IsSoundConfig};
ghost use Rattle.spdm_basis.specs.Stream.{HasFault, Takes, TakesPrefix};

use crate::RunFault;
use crate::life::run_life;
use link_world::World;
use script_text::{Life, Lives, ScriptConfig, line_at, line_cycle};
use spdm_basis::{Bytes, Line, OutOfMemory, Sink, write_all};
use std::alloc::Global;

// The lines of a `cycle`: its place, and the boot of the life that it begins.
fn cycle_lines(alloc: Global, number: u32, boot: u32) -> Result<Bytes, OutOfMemory>
    ensures { IfOk result (λ text. text ≡ cycle_lines number boot) }
{
    let mut text = Bytes::new(alloc);
    let mut line = Line::new();
    line_at(number, &mut line);
    text.extend(line.as_slice())?;
    line_cycle(boot, &mut line);
    text.extend(line.as_slice())?;
    Ok(text)
}

// Writes the lines of a `cycle`, in one piece.
fn write_cycle<K: Sink>(alloc: Global, number: u32, boot: u32, sink: &mut K) -> Result<(), RunFault>
    ensures whole { OnOk result (Takes (K.contents sink.old) (cycle_lines number boot)
        (K.contents sink.new)) }
    ensures prefix { OnErr result (TakesPrefix (K.contents sink.old) (cycle_lines number boot)
        (K.contents sink.new)) }
    ensures kind { (line : ℕ) → result ≡ Err (RunFault.LinkFull line) → ⊥ }
    ensures write_fault { IsErrOf result RunFault.WriteFault
        → HasFault (K.faults sink.old) (K.faults sink.new) }
    ensures later { K.faults sink.old ≤ K.faults sink.new }
{
    let Ok(text) = cycle_lines(alloc, number, boot) else {
        return Err(RunFault::OutOfMemory);
    };
    match write_all(sink, text.as_slice()) {
        Ok(()) => Ok(()),
        Err(_) => Err(RunFault::WriteFault),
    }
}

// Lets all ends start again: writes the lines of the `cycle`, and runs the life that it begins.
fn run_next<K: Sink>(
    alloc: Global,
    config: &ScriptConfig,
    boot: u32,
    life: &Life,
    sink: &mut K,
) -> Result<World, RunFault>
    requires sound { IsSoundConfig config.now }
    requires boot { boot ≤ 2 ^ 24 - 2 }
    ensures whole { OnOk result (Takes (K.contents sink.old) (cycle_lines life.now.cycle_line boot
        ++ life_text config.now boot life.now.events) (K.contents sink.new)) }
    ensures last { IfOk result
        (λ world. StandsFor world (life_world config.now boot life.now.events)) }
    ensures room { OnOk result (life_full config.now boot life.now.events ≡ None) }
    ensures prefix { TakesPrefix (K.contents sink.old) (cycle_lines life.now.cycle_line boot
        ++ life_text config.now boot life.now.events) (K.contents sink.new) }
    ensures link_full { (line : ℕ) → result ≡ Err (RunFault.LinkFull line)
        → (life_full config.now boot life.now.events ≡ Some line)
        × Takes (K.contents sink.old) (cycle_lines life.now.cycle_line boot
        ++ life_text config.now boot life.now.events) (K.contents sink.new) }
    ensures write_fault { IsErrOf result RunFault.WriteFault
        → HasFault (K.faults sink.old) (K.faults sink.new) }
    ensures later { K.faults sink.old ≤ K.faults sink.new }
{
    match write_cycle(alloc, life.cycle_line, boot, sink) {
        Ok(()) => {}
        Err(fault) => return Err(fault),
    }
    match run_life(alloc, config, boot, life.events.as_slice(), sink) {
        Ok(world) => Ok(world),
        Err(fault) => Err(fault),
    }
}

/// Runs lives one after another, of a configuration in range: the boots are 1, 2, 3 and so on, as a keeper that does not
/// fail counts them. Writes their traces, and returns the final world of the last.
///
/// At a `cycle` all ends and all packets are gone, and packets are counted from 1 again.
pub fn run_lives<K: Sink>(alloc: Global, lives: &Lives, sink: &mut K) -> Result<World, RunFault>
    requires sound { IsSoundConfig lives.now.config }
    requires some { 0 < length lives.now.lives }
    requires few { length lives.now.lives ≤ 2 ^ 24 - 2 }
    ensures whole { OnOk result (Takes (K.contents sink.old) (written_lives lives.now)
        (K.contents sink.new)) }
    ensures last { IfOk result (λ world. StandsFor world (last_of_lives lives.now)) }
    ensures room { OnOk result (full_in_lives lives.now ≡ None) }
    ensures prefix { TakesPrefix (K.contents sink.old) (written_lives lives.now)
        (K.contents sink.new) }
    ensures link_full { (line : ℕ) → result ≡ Err (RunFault.LinkFull line)
        → (full_in_lives lives.now ≡ Some line)
        × Takes (K.contents sink.old) (written_lives lives.now) (K.contents sink.new) }
    ensures write_fault { IsErrOf result RunFault.WriteFault
        → HasFault (K.faults sink.old) (K.faults sink.new) }
    ensures later { K.faults sink.old ≤ K.faults sink.new }
{
    let Some((first, others)) = lives.lives.as_slice().split_first() else {
        unreachable!()
    };
    let mut boot = 1;
    let mut world = match run_life(alloc, &lives.config, boot, first.events.as_slice(), sink) {
        Ok(world) => world,
        Err(fault) => return Err(fault),
    };
    for life in others {
        boot += 1;
        drop(world);
        world = match run_next(alloc, &lives.config, boot, life, sink) {
            Ok(world) => world,
            Err(fault) => return Err(fault),
        };
    }
    Ok(world)
}
