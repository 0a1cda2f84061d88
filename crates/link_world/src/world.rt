ghost use Rattle.std.specs.Prelude.{◌≡◌};
ghost use Rattle.link_world.specs.Events.{is_show};

use crate::event_text::EventText;
use crate::lines::push_at;
use crate::link::Link;
use crate::making::link_of;
use crate::{SendFault, SentPackets, StepFault, Totals, WorldFault};
use requester::Requester;
use responder::Responder;
use script_text::{LinkEvent, ScriptConfig};
use spdm_basis::{OutFault, Sink, write_all};
use std::alloc::Global;

/// A responder, its requesters and the packets sent between them. Only `step` changes it.
#[derive(Drop)]
pub struct World {
    pub(crate) link: Link,
    // Memory for the lines of an event.
    pub(crate) text: EventText,
}

// Whether the ends are shown.
fn is_show(event: &LinkEvent) -> bool
    ensures { result ≡ is_show event.now }
{
    matches!(event, LinkEvent::Show)
}

impl World {
    ghost use Rattle.std.specs.Prelude.{◌≡◌, ◌≤◌, ◌-◌, ◌^◌, ℕ, List, Some, true, false, IfErr, IfOk, IsErrOf, IsSome, OnErr, OnOk};
    ghost use Rattle.std.specs.Option.{option_map};
    ghost use Rattle.script_ends.specs.Configured.{configuration_in};
    ghost use Rattle.link_world.specs.Configured.{IsCause, IsSound};
    ghost use Rattle.link_world.specs.Events.{entry_of};
    ghost use Rattle.link_world.specs.Standing.{IsSeen};
    ghost use Rattle.link_world.specs.Worlds.{StandsFor};
    ghost use Rattle.link_world.specs.Written.{before_full, has_full, text_of};
    ghost use Rattle.responder.specs.Standing as answering;
    ghost use Rattle.spdm_basis.specs.Stream.{HasFault, Takes, TakesPrefix};
    ghost use Rattle.world_machine.specs.Setup.{script_world};
    ghost use Rattle.world_machine.specs.Totals.{totals_of};
    ghost use Rattle.world_machine.specs.Trace.{is_full, packets_max};
    ghost use Rattle.world_machine.specs.World as machine;

    /// The initial world of a configuration. Its one seed determines those of the endpoints. `WorldFault` lists the
    /// faults in the order of the checks.
    pub fn new(alloc: Global, config: &ScriptConfig) -> Result<World, WorldFault>
        requires { IsSome config.now.seed }
        ensures stands { (seed : List ℕ) → config.now.seed ≡ Some seed
            → IfOk result (λ world. StandsFor world
            (machine.new_world (script_world (configuration_in config.now) seed 0))) }
        ensures sound { OnOk result (IsSound config.now) }
        ensures fault { IfErr result (λ fault. IsCause config.now fault) }
    {
        World::resume(alloc, config, 0)
    }

    /// The initial world. `boot` is the number of earlier boots with this seed, at most 2^24 - 2. Each boot uses random
    /// values that no other boot uses. Faults as for `new`.
    pub fn resume(alloc: Global, config: &ScriptConfig, boot: u32) -> Result<World, WorldFault>
        requires seed { IsSome config.now.seed }
        requires boot { boot ≤ 2 ^ 24 - 2 }
        ensures stands { (seed : List ℕ) → config.now.seed ≡ Some seed
            → IfOk result (λ world. StandsFor world
            (machine.new_world (script_world (configuration_in config.now) seed boot))) }
        ensures sound { OnOk result (IsSound config.now) }
        ensures fault { IfErr result (λ fault. IsCause config.now fault) }
    {
        Ok(World {
            link: link_of(alloc, config, boot)?,
            text: EventText::new(alloc),
        })
    }

    /// Writes the lines with which a trace begins: phase and sessions of each endpoint. Never allocates (read, not
    /// proved).
    pub fn start<K: Sink>(&self, sink: &mut K) -> Result<(), OutFault>
        ensures written { (w : machine.World) → StandsFor self.now w
            → OnOk result (Takes (K.contents sink.old) (text_of (machine.shown_lines w))
            (K.contents sink.new)) }
        ensures prefix { (w : machine.World) → StandsFor self.now w
            → OnErr result (TakesPrefix (K.contents sink.old) (text_of (machine.shown_lines w))
            (K.contents sink.new)) }
        ensures write_fault { OnErr result (HasFault (K.faults sink.old) (K.faults sink.new)) }
        ensures later { K.faults sink.old ≤ K.faults sink.new }
    {
        self.link.ends.show(sink)
    }

    /// Runs the event on this line of the script, and writes its trace lines. An event for a requester that is not
    /// configured does nothing. After `LinkFull` the lines before that of the packet without room were written, and
    /// after any other fault a prefix of these; the world must not be used again.
    pub fn step<K: Sink>(
        &mut self,
        line: u32,
        event: &LinkEvent,
        sink: &mut K,
    ) -> Result<(), StepFault>
        ensures written { (w : machine.World) → StandsFor self.old w
            → OnOk result (Takes (K.contents sink.old)
            (text_of (machine.entry_step w (entry_of line event.now)).lines)
            (K.contents sink.new)) }
        ensures stands { (w : machine.World) → StandsFor self.old w
            → OnOk result (StandsFor self.new
            (machine.entry_step w (entry_of line event.now)).after) }
        ensures fits { (w : machine.World) → StandsFor self.old w
            → OnOk result (has_full (machine.entry_step w (entry_of line event.now)).lines
            ≡ false) }
        ensures has_room { (w : machine.World) → StandsFor self.old w
            → OnOk result (is_full w (entry_of line event.now) ≡ false) }
        ensures link_full { (w : machine.World) → StandsFor self.old w
            → IsErrOf result StepFault.LinkFull
            → has_full (machine.entry_step w (entry_of line event.now)).lines ≡ true }
        ensures is_full { (w : machine.World) → StandsFor self.old w
            → IsErrOf result StepFault.LinkFull → is_full w (entry_of line event.now) ≡ true }
        ensures before_full { (w : machine.World) → StandsFor self.old w
            → IsErrOf result StepFault.LinkFull
            → Takes (K.contents sink.old)
            (text_of (before_full (machine.entry_step w (entry_of line event.now)).lines))
            (K.contents sink.new) }
        ensures prefix { (w : machine.World) → StandsFor self.old w
            → OnErr result (TakesPrefix (K.contents sink.old)
            (text_of (before_full (machine.entry_step w (entry_of line event.now)).lines))
            (K.contents sink.new)) }
        ensures write_fault { IsErrOf result StepFault.WriteFault
            → HasFault (K.faults sink.old) (K.faults sink.new) }
        ensures later { K.faults sink.old ≤ K.faults sink.new }
    {
        self.text.clear();
        push_at(line, &mut self.text).map_err(|_| StepFault::OutOfMemory)?;
        if is_show(event) {
            self.write(sink)?;
            return self.link.ends.show(sink).map_err(|_| StepFault::WriteFault);
        }
        match self.link.happen(event, &mut self.text) {
            Ok(()) => self.write(sink),
            Err(SendFault::LinkFull) => {
                self.write(sink)?;
                Err(StepFault::LinkFull)
            }
            Err(SendFault::OutOfMemory) => Err(StepFault::OutOfMemory),
        }
    }

    // Writes the lines that were gathered.
    fn write<K: Sink>(&self, sink: &mut K) -> Result<(), StepFault>
        ensures whole { OnOk result (Takes (K.contents sink.old) self.now.text
            (K.contents sink.new)) }
        ensures prefix { OnErr result (TakesPrefix (K.contents sink.old) self.now.text
            (K.contents sink.new)) }
        ensures fault { OnErr result (HasFault (K.faults sink.old) (K.faults sink.new)) }
        ensures kind { IfErr result (λ fault. fault ≡ StepFault.WriteFault) }
        ensures later { K.faults sink.old ≤ K.faults sink.new }
    {
        write_all(sink, self.text.as_slice()).map_err(|_| StepFault::WriteFault)
    }

    /// The requester with this index, counted from 0; `None` exactly when the index is not below their number.
    pub fn requester(&self, index: usize) -> Option<&Requester>
        ensures { (w : machine.World) → StandsFor self.now w
            → IsSeen (option_map (λ requester. requester.now) result)
            (machine.requester_at index w.requesters) }
    {
        match self.link.ends.requesters.get(index) {
            Some(asker) => Some(&asker.requester),
            None => None,
        }
    }

    /// The responder.
    pub fn responder(&self) -> &Responder
        ensures { (w : machine.World) → StandsFor self.now w
            → answering.StandsFor result.now w.responder }
    {
        &self.link.ends.responder
    }

    /// The packets that were sent, and which of them wait for delivery.
    pub fn sent(&self) -> &SentPackets
        ensures { (w : machine.World) → StandsFor self.now w → result.now ≡ w.sent }
    {
        &self.link.sent
    }

    /// The counters of the world. Never allocates (read, not proved).
    pub fn totals(&self) -> Totals
        ensures packets { (w : machine.World) → StandsFor self.now w
            → result.packets ≡ (totals_of w).packets }
        ensures most { (w : machine.World) → StandsFor self.now w
            → result.packets ≤ packets_max }
        ensures taken { (w : machine.World) → StandsFor self.now w
            → result.taken ≡ (totals_of w).taken }
        ensures live { (w : machine.World) → StandsFor self.now w
            → result.live ≡ (totals_of w).live }
    {
        Totals {
            packets: self.link.sent.count(),
            taken: self.link.ends.taken,
            live: self.link.ends.live(),
        }
    }
}
