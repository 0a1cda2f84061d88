ghost use Rattle.std.specs.Prelude.{◌≡◌};
ghost use Rattle.requester_drive.specs.Told.{told_of};

use crate::DriveFault;
use crate::commands::command_of;
use crate::lines::{write_given, write_told};
use crate::making::first_requester;
use frame_stream::{FrameFault, FrameKind, FrameReader, Kinds};
use mctp_framing::PacketList;
use requester::{Command, Requester};
use script_text::{MOST_BYTES, ScriptConfig, read_command};
use spdm_basis::{Sink, Source};
use std::alloc::Global;

// A requester reads packets and commands.
const DRIVEN: Kinds = Kinds {
    ticks: false,
    commands: true,
};

/// A requester, the reader of its stream and room for the packets that it sends.
#[derive(Drop)]
pub(crate) struct Driver {
    pub(crate) requester: Requester,
    pub(crate) reader: FrameReader,
    pub(crate) out: PacketList,
}

// The fault of a call, as it is reported.
fn fault_of(fault: FrameFault) -> DriveFault
    ensures { result ≡ told_of fault }
{
    match fault {
        FrameFault::ReadFault => DriveFault::ReadFault,
        FrameFault::TooLong => DriveFault::TooLong,
        FrameFault::BadFrame { at } => DriveFault::BadFrame { at },
    }
}

impl Driver {
    ghost use Rattle.std.specs.Prelude.{◌≡◌, ◌≤◌, ◌<◌, ◌-◌, ◌^◌, Some, IfErr, IfOk, OnErr, length};
    ghost use Rattle.requester_core.specs.Joined.{command_of};
    ghost use Rattle.frame_stream.specs.Frames.{stream_limit};
    ghost use Rattle.frame_stream.specs.Standing.{IsNew, beginning_of, content_in};
    ghost use Rattle.requester.specs.Standing.{StandsFor};
    ghost use Rattle.requester_drive.specs.Driven.{driven_by_command, driven_by_packet, driven_kinds};
    ghost use Rattle.requester_drive.specs.First.{first_in_life};
    ghost use Rattle.requester_drive.specs.Standing.{IsDrivenBy, IsKept, IsObeyed, IsStep, IsStepFault};
    ghost use Rattle.requester_drive.specs.Told.{IsEarly};
    ghost use Rattle.requester_machine.specs.Requesting.{Requesting, requester_given, requester_told};
    ghost use Rattle.spdm_basis.specs.Stream.{HasFault};

    // The first requester of a configuration with this seed, in the life of this boot number, and its stream, of which
    // some bytes were read already.
    pub(crate) fn new(
        alloc: Global,
        config: &ScriptConfig,
        seed: [u8; 32],
        boot: u32,
        before: &[u8],
    ) -> Result<Driver, DriveFault>
        requires some { 0 < length config.now.requesters }
        requires boot { boot ≤ 2 ^ 24 - 2 }
        ensures stands { (a : Requesting) → first_in_life config.now seed boot ≡ Some a → IfOk result
            (λ driver. StandsFor driver.requester a) }
        ensures reader { IfOk result
            (λ driver. IsNew driven_kinds stream_limit before.now driver.reader) }
        ensures fault { IfErr result (IsEarly config.now) }
    {
        let Ok(reader) = FrameReader::new(alloc, DRIVEN, before) else {
            return Err(DriveFault::OutOfMemory);
        };
        let Ok(out) = PacketList::new(alloc) else {
            return Err(DriveFault::OutOfMemory);
        };
        match first_requester(alloc, config, seed, boot) {
            Ok(requester) => Ok(Driver {
                requester,
                reader,
                out,
            }),
            Err(fault) => Err(fault),
        }
    }

    // Gives the packet that was read to the requester, and writes what it led to.
    fn give_packet<K: Sink>(&mut self, sink: &mut K) -> Result<(), DriveFault>
        requires { IsKept self.old.requester }
        ensures reader { self.new.reader ≡ self.old.reader }
        ensures given { (a : Requesting) → StandsFor self.old.requester a
            → IsDrivenBy (driven_by_packet (requester_given a (content_in self.old.reader)))
            (K.contents sink.old) result self.new (K.contents sink.new) }
        ensures fault { OnErr result (HasFault (K.faults sink.old) (K.faults sink.new)) }
        ensures later { K.faults sink.old ≤ K.faults sink.new }
    {
        let event = self
            .requester
            .on_packet(self.reader.content(), &mut self.out);
        match write_given(sink, event, self.requester.last_data(), &self.out) {
            Ok(()) => Ok(()),
            Err(_) => Err(DriveFault::WriteFault),
        }
    }

    // Tells the requester a command, and writes what it led to.
    fn tell_command<K: Sink>(
        &mut self,
        command: Command<'_>,
        sink: &mut K,
    ) -> Result<(), DriveFault>
        requires { IsKept self.old.requester }
        ensures reader { self.new.reader ≡ self.old.reader }
        ensures told { (a : Requesting) → StandsFor self.old.requester a
            → IsDrivenBy (driven_by_command (requester_told a (command_of command.entry)))
            (K.contents sink.old) result self.new (K.contents sink.new) }
        ensures fault { OnErr result (HasFault (K.faults sink.old) (K.faults sink.new)) }
        ensures later { K.faults sink.old ≤ K.faults sink.new }
    {
        let answer = self.requester.command(command, &mut self.out);
        match write_told(sink, &answer, &self.out) {
            Ok(()) => Ok(()),
            Err(_) => Err(DriveFault::WriteFault),
        }
    }

    // Tells the requester the command of the line that was read. There is room for the bytes of the line.
    fn obey<K: Sink>(
        &mut self,
        config: &ScriptConfig,
        room: &mut [u8; MOST_BYTES],
        sink: &mut K,
    ) -> Result<(), DriveFault>
        requires { IsKept self.old.requester }
        ensures reader { self.new.reader ≡ self.old.reader }
        ensures obeyed { (a : Requesting) → StandsFor self.old.requester a → IsObeyed config.now a
            (beginning_of self.old.reader) (content_in self.old.reader) (record {
              before = K.faults sink.old;
              after = K.faults sink.new;
            }) (K.contents sink.old) result self.new (K.contents sink.new) }
        ensures later { K.faults sink.old ≤ K.faults sink.new }
    {
        match read_command(config, self.reader.content(), room) {
            Ok(line) => match command_of(&line, room) {
                Some(command) => self.tell_command(command, sink),
                None => Err(DriveFault::BadFrame {
                    at: self.reader.frame_begins(),
                }),
            },
            Err(_) => Err(DriveFault::BadFrame {
                at: self.reader.frame_begins(),
            }),
        }
    }

    // Reads the next frame and writes what it led to. Returns whether there was one. There is room for the bytes of a
    // line.
    pub(crate) fn drive_next<S: Source, K: Sink>(
        &mut self,
        config: &ScriptConfig,
        room: &mut [u8; MOST_BYTES],
        source: &mut S,
        sink: &mut K,
    ) -> Result<bool, DriveFault>
        requires kinds { self.old.reader.kinds ≡ driven_kinds }
        requires kept { IsKept self.old.requester }
        ensures step { (a : Requesting) → StandsFor self.old.requester a → IfOk result
            (λ more. IsStep config.now a self.old (S.remaining source.old) (K.contents sink.old)
            more self.new (S.remaining source.new) (K.contents sink.new)) }
        ensures fault { (a : Requesting) → StandsFor self.old.requester a → IfErr result
            (λ fault. IsStepFault config.now a self.old (S.remaining source.old)
            (K.contents sink.old) (record {
              read_before = S.faults source.old;
              read_after = S.faults source.new;
              written_before = K.faults sink.old;
              written_after = K.faults sink.new;
            }) fault self.new (S.remaining source.new) (K.contents sink.new)) }
        ensures read_later { S.faults source.old ≤ S.faults source.new }
        ensures written_later { K.faults sink.old ≤ K.faults sink.new }
    {
        match self.reader.next(source) {
            Ok(None) => Ok(false),
            Ok(Some(FrameKind::Packet)) => match self.give_packet(sink) {
                Ok(()) => Ok(true),
                Err(fault) => Err(fault),
            },
            Ok(Some(FrameKind::Tick(_))) => unreachable!(),
            Ok(Some(FrameKind::Command)) => match self.obey(config, room, sink) {
                Ok(()) => Ok(true),
                Err(fault) => Err(fault),
            },
            Err(fault) => Err(fault_of(fault)),
        }
    }
}
