ghost use Rattle.std.specs.Prelude.{◌≡◌, ◌≤◌, ◌++◌, ◌∷◌, [], None, length, IfErr, IfOk, IsErrOf, OnOk, false, true};
ghost use Rattle.link_world.specs.Events.{entry_of, happening_of};
ghost use Rattle.link_world.specs.Worlds.{StandsFor};
ghost use Rattle.link_world.specs.Written.{has_full};
ghost use Rattle.script_capture.specs.Carried.{again, carried, carried_from, carried_in, put, sent_behind};
ghost use Rattle.script_capture.specs.Written.{HasNone, HaveNone, most_packets};
ghost use Rattle.script_laws.specs.Scripts.{entries_in, full_from, full_line};
ghost use Rattle.script_text.specs.Sound.{IsSoundConfig};
ghost use Rattle.world_machine.specs.World as machine;

use crate::CaptureFault;
use link_world::{SentPackets, StepFault, World};
use script_run::new_world;
use script_text::{Entry, LinkEvent, Packets, Script};
use spdm_basis::{Bytes, NullSink, OutOfMemory};
use std::alloc::Global;

// The most packets of a capture.
const MOST_PACKETS: usize = 100_000;

// Adds a copy of a packet.
fn add(alloc: Global, packet: &[u8], packets: &mut Packets) -> Result<(), OutOfMemory>
    ensures { OnOk result (packets.new ≡ packets.old ++ packet.now ∷ []) }
{
    let copy = Bytes::copy(alloc, packet)?;
    packets.push(copy)
}

// Adds the packet with this number, if it was sent and waits no longer.
fn add_again(
    alloc: Global,
    sent: &SentPackets,
    number: u32,
    packets: &mut Packets,
) -> Result<(), OutOfMemory>
    ensures { OnOk result (packets.new ≡ packets.old ++ again number sent.now) }
{
    if sent.is_waiting(number) {
        return Ok(());
    }
    match sent.get(number) {
        Some(packet) => add(alloc, packet, packets),
        None => Ok(()),
    }
}

// Adds what the link itself puts between the ends at an event.
fn add_put(
    alloc: Global,
    sent: &SentPackets,
    event: &LinkEvent,
    packets: &mut Packets,
) -> Result<(), OutOfMemory>
    ensures { OnOk result (packets.new ≡ packets.old ++ put sent.now (happening_of event.now)) }
{
    match event {
        LinkEvent::Deliver { number } => add_again(alloc, sent, *number, packets),
        LinkEvent::Inject { bytes } => add(alloc, bytes.as_slice(), packets),
        _ => Ok(()),
    }
}

// Adds the packets that were sent after the first so many.
fn add_sent(
    alloc: Global,
    sent: &SentPackets,
    before: u32,
    packets: &mut Packets,
) -> Result<(), OutOfMemory>
    ensures { OnOk result (packets.new ≡ packets.old ++ sent_behind before sent.now) }
{
    for index in before..sent.count() {
        let Some(packet) = sent.get(index + 1) else {
            unreachable!()
        };
        add(alloc, packet, packets)?;
    }
    Ok(())
}

// Runs an event, and adds the packets that the link carries at it.
fn carry(
    alloc: Global,
    world: &mut World,
    entry: &Entry,
    packets: &mut Packets,
) -> Result<(), StepFault>
    ensures packets { (w : machine.World) → StandsFor world.old w
        → OnOk result (packets.new ≡ packets.old
        ++ carried w (entry_of entry.now.line entry.now.event)) }
    ensures stands { (w : machine.World) → StandsFor world.old w
        → OnOk result (StandsFor world.new
        (machine.entry_step w (entry_of entry.now.line entry.now.event)).after) }
    ensures fits { (w : machine.World) → StandsFor world.old w
        → OnOk result (has_full (machine.entry_step w (entry_of entry.now.line entry.now.event)).lines ≡ false) }
    ensures link_full { (w : machine.World) → StandsFor world.old w
        → IsErrOf result StepFault.LinkFull
        → has_full (machine.entry_step w (entry_of entry.now.line entry.now.event)).lines ≡ true }
    ensures no_write { IsErrOf result StepFault.WriteFault → ⊥ }
{
    let before = world.sent().count();
    match add_put(alloc, world.sent(), &entry.event, packets) {
        Ok(()) => {}
        Err(OutOfMemory) => return Err(StepFault::OutOfMemory),
    }
    match world.step(entry.line, &entry.event, &mut NullSink) {
        Ok(()) => {}
        Err(StepFault::LinkFull) => return Err(StepFault::LinkFull),
        Err(_) => return Err(StepFault::OutOfMemory),
    }
    match add_sent(alloc, world.sent(), before, packets) {
        Ok(()) => Ok(()),
        Err(OutOfMemory) => Err(StepFault::OutOfMemory),
    }
}

// Runs events, and adds the packets that the link carries at them.
fn carry_all(alloc: Global, world: &mut World, events: &[Entry]) -> Result<Packets, CaptureFault>
    ensures packets { (w : machine.World) → StandsFor world.old w
        → IfOk result (λ packets. packets ≡ carried_from w (entries_in events.now)) }
    ensures few { IfOk result (λ packets. length packets ≤ most_packets) }
    ensures room { (w : machine.World) → StandsFor world.old w
        → OnOk result (full_from w (entries_in events.now) ≡ None) }
    ensures cause { (w : machine.World) → StandsFor world.old w
        → IfErr result (λ fault. HaveNone w events.now fault) }
{
    let mut packets = Packets::new(alloc);
    for entry in events {
        match carry(alloc, world, entry, &mut packets) {
            Ok(()) => {}
            Err(StepFault::LinkFull) => return Err(CaptureFault::LinkFull(entry.line)),
            Err(_) => return Err(CaptureFault::OutOfMemory),
        }
        if packets.len() > MOST_PACKETS {
            return Err(CaptureFault::TooManyPackets(entry.line));
        }
    }
    Ok(packets)
}

/// Runs a script whose configuration is in range, and returns the packets that its link carries, at most 100,000. The
/// fault is none of a line or of writing.
pub fn carried_packets(alloc: Global, script: &Script) -> Result<Packets, CaptureFault>
    requires { IsSoundConfig script.now.config }
    ensures packets { IfOk result (λ packets. packets ≡ carried_in script.now) }
    ensures few { IfOk result (λ packets. length packets ≤ most_packets) }
    ensures room { OnOk result (full_line script.now ≡ None) }
    ensures cause { IfErr result (λ fault. HasNone script.now fault) }
{
    let Ok(mut world) = new_world(alloc, script) else {
        return Err(CaptureFault::OutOfMemory);
    };
    carry_all(alloc, &mut world, script.events.as_slice())
}
