ghost use Rattle.std.specs.Prelude.{◌≡◌};
ghost use Rattle.responder_serve.specs.Told.{of_responder, told_of};

use crate::ServeFault;
use crate::changing::write_changes;
use crate::hearing::{hear, tell_brought};
use crate::lines::write_reply;
use crate::replies::{Said, said_in};
use crate::waiting::Waiting;
use frame_stream::{FrameFault, FrameKind, FrameReader, Kinds};
use mctp_framing::PacketList;
use responder::{PeekRoom, Responder, RspConfigFault, SessionWatch};
use script_ends::make_responder;
use script_text::{MOST_BYTES, ReqPart, ScriptConfig};
use spdm_basis::{Sink, Source};
use std::alloc::Global;

// A device reads packets, seconds that passed, and lines of its application.
const SERVED: Kinds = Kinds {
    ticks: true,
    commands: true,
};

/// A responder with the packet that waits for its application, the reader of its stream, and room for the data of a packet
/// and for the packets of an answer.
#[derive(Drop)]
pub(crate) struct Device {
    pub(crate) responder: Responder,
    pub(crate) waiting: Waiting,
    pub(crate) reader: FrameReader,
    pub(crate) room: PeekRoom,
    pub(crate) out: PacketList,
}

// The fault of a call, as it is reported.
fn fault_of(fault: FrameFault) -> ServeFault
    ensures { result ≡ told_of fault }
{
    match fault {
        FrameFault::ReadFault => ServeFault::ReadFault,
        FrameFault::TooLong => ServeFault::TooLong,
        FrameFault::BadFrame { at } => ServeFault::BadFrame { at },
    }
}

// Why there is no responder, as why nothing is served.
fn fault_of_responder(fault: RspConfigFault) -> ServeFault
    ensures { result ≡ of_responder fault }
{
    match fault {
        RspConfigFault::TooManyRequesters => {
            ServeFault::Responder(RspConfigFault::TooManyRequesters)
        }
        RspConfigFault::SameEid => ServeFault::Responder(RspConfigFault::SameEid),
        RspConfigFault::SamePsk => ServeFault::Responder(RspConfigFault::SamePsk),
        RspConfigFault::SizeRange => ServeFault::Responder(RspConfigFault::SizeRange),
        RspConfigFault::Inventory(of) => ServeFault::Responder(RspConfigFault::Inventory(of)),
        RspConfigFault::OutOfMemory => ServeFault::OutOfMemory,
    }
}

impl Device {
    ghost use Rattle.std.specs.Prelude.{◌≡◌, ◌≤◌, ◌<◌, ◌-◌, ◌^◌, [], length, None, IfErr, IfOk, OnErr, OnOk};
    ghost use Rattle.device_serve.specs.Devised as devised;
    ghost use Rattle.device_serve.specs.Devised.{answers_waiting, arrives, behind, changes_at, device_in_life, device_kinds, frames_of, rests, settles, told_changes};
    ghost use Rattle.device_serve.specs.Replies.Answer.{WithData};
    ghost use Rattle.device_serve.specs.Standing.{IsDevice, IsDevisedBy, IsObeyed, IsStep, IsStepFault, StandsFor};
    ghost use Rattle.frame_stream.specs.Frames.{stream_limit};
    ghost use Rattle.frame_stream.specs.Standing.{IsNew, beginning_of, content_in};
    ghost use Rattle.responder.specs.Changes.{marks_at, marks_in};
    ghost use Rattle.responder_machine.specs.Responding.{Responding, connection_of, ticks};
    ghost use Rattle.responder_serve.specs.Told.{IsEarly};
    ghost use Rattle.responder_serve.specs.declared.fault.ServeFault.TheVariants.{WriteFault};
    ghost use Rattle.spdm_basis.specs.Stream.{HasFault, Takes, TakesPrefix};

    // The device of a configuration with this seed, in the life of this boot number, and its stream, of which some bytes
    // were read already. Allocates all its memory here (read, not proved).
    pub(crate) fn new(
        alloc: Global,
        config: &ScriptConfig,
        seed: [u8; 32],
        boot: u32,
        before: &[u8],
    ) -> Result<Device, ServeFault>
        requires { boot ≤ 2 ^ 24 - 2 }
        ensures stands { IfOk result
            (λ device. StandsFor device (device_in_life config.now seed boot)) }
        ensures reader { IfOk result
            (λ device. IsNew device_kinds stream_limit before.now device.reader) }
        ensures fault { IfErr result (IsEarly config.now) }
    {
        let Ok(reader) = FrameReader::new(alloc, SERVED, before) else {
            return Err(ServeFault::OutOfMemory);
        };
        let Ok(out) = PacketList::new(alloc) else {
            return Err(ServeFault::OutOfMemory);
        };
        let Ok(waiting) = Waiting::new(alloc) else {
            return Err(ServeFault::OutOfMemory);
        };
        match make_responder(alloc, config, seed, boot) {
            Ok(responder) => Ok(Device {
                responder,
                waiting,
                reader,
                room: PeekRoom::new(),
                out,
            }),
            Err(fault) => Err(fault_of_responder(fault)),
        }
    }

    // Answers the packet that waits without data, if one waits.
    fn settle<K: Sink>(&mut self, sink: &mut K) -> Result<(), ServeFault>
        requires { IsDevice self.old }
        ensures reader { self.new.reader ≡ self.old.reader }
        ensures settled { (d : devised.Device) → StandsFor self.old d
            → IsDevisedBy (settles d) (K.contents sink.old) result self.new (K.contents sink.new) }
        ensures fault { OnErr result (HasFault (K.faults sink.old) (K.faults sink.new)) }
        ensures later { K.faults sink.old ≤ K.faults sink.new }
    {
        if self.waiting.from.is_none() {
            return Ok(());
        }
        match hear(
            &mut self.responder,
            self.waiting.packet(),
            &mut self.out,
            sink,
        ) {
            Ok(()) => {
                self.waiting.release();
                Ok(())
            }
            Err(_) => Err(ServeFault::WriteFault),
        }
    }

    // The packet that was read arrives, where none waits: it waits, or is given to the responder.
    fn arrive<K: Sink>(&mut self, config: &ScriptConfig, sink: &mut K) -> Result<(), ServeFault>
        requires few { length config.now.requesters ≤ 8 }
        requires device { IsDevice self.old }
        requires rests { self.old.waiting.from ≡ None }
        requires fits { length (content_in self.old.reader) < 2 ^ 16 }
        ensures reader { self.new.reader ≡ self.old.reader }
        ensures arrived { (d : devised.Device) → StandsFor self.old d
            → IsDevisedBy (arrives config.now d.responder (content_in self.old.reader))
            (K.contents sink.old) result self.new (K.contents sink.new) }
        ensures fault { OnErr result (HasFault (K.faults sink.old) (K.faults sink.new)) }
        ensures later { K.faults sink.old ≤ K.faults sink.new }
    {
        let packet = self.reader.content();
        match tell_brought(&self.responder, config, packet, &mut self.room, sink) {
            Ok(Some(from)) => {
                self.waiting.hold(from, packet);
                Ok(())
            }
            Ok(None) => match hear(&mut self.responder, packet, &mut self.out, sink) {
                Ok(()) => Ok(()),
                Err(_) => Err(ServeFault::WriteFault),
            },
            Err(_) => Err(ServeFault::WriteFault),
        }
    }

    // The packet that was read: the one that waits is answered, and it arrives.
    fn take_packet<K: Sink>(
        &mut self,
        config: &ScriptConfig,
        sink: &mut K,
    ) -> Result<(), ServeFault>
        requires few { length config.now.requesters ≤ 8 }
        requires device { IsDevice self.old }
        requires fits { length (content_in self.old.reader) < 2 ^ 16 }
        ensures reader { self.new.reader ≡ self.old.reader }
        ensures taken { (d : devised.Device) → StandsFor self.old d
            → IsDevisedBy
            (behind (settles d) (λ r. arrives config.now r (content_in self.old.reader)))
            (K.contents sink.old) result self.new (K.contents sink.new) }
        ensures fault { OnErr result (HasFault (K.faults sink.old) (K.faults sink.new)) }
        ensures later { K.faults sink.old ≤ K.faults sink.new }
    {
        match self.settle(sink) {
            Ok(()) => self.arrive(config, sink),
            Err(fault) => Err(fault),
        }
    }

    // Seconds pass, behind an answer to the packet that waits.
    fn pass<K: Sink>(&mut self, seconds: u32, sink: &mut K) -> Result<(), ServeFault>
        requires { IsDevice self.old }
        ensures reader { self.new.reader ≡ self.old.reader }
        ensures passed { (d : devised.Device) → StandsFor self.old d
            → IsDevisedBy (behind (settles d) (λ r. rests (ticks r seconds)))
            (K.contents sink.old) result self.new (K.contents sink.new) }
        ensures fault { OnErr result (HasFault (K.faults sink.old) (K.faults sink.new)) }
        ensures later { K.faults sink.old ≤ K.faults sink.new }
    {
        match self.settle(sink) {
            Ok(()) => {
                self.responder.tick(seconds);
                Ok(())
            }
            Err(fault) => Err(fault),
        }
    }

    // Answers the packet that waits with data, if one waits.
    fn reply<K: Sink>(&mut self, bytes: &[u8], sink: &mut K) -> Result<(), ServeFault>
        requires { IsDevice self.old }
        ensures reader { self.new.reader ≡ self.old.reader }
        ensures replied { (d : devised.Device) → StandsFor self.old d
            → IsDevisedBy (answers_waiting d.responder d.waits (WithData bytes.now))
            (K.contents sink.old) result self.new (K.contents sink.new) }
        ensures fault { OnErr result (HasFault (K.faults sink.old) (K.faults sink.new)) }
        ensures later { K.faults sink.old ≤ K.faults sink.new }
    {
        let Some(from) = self.waiting.from else {
            return Ok(());
        };
        let answer = self.responder.queue(from, bytes);
        match write_reply(sink, &answer) {
            Ok(()) => self.settle(sink),
            Err(_) => Err(ServeFault::WriteFault),
        }
    }

    // Takes the line that was read. There is room for its bytes.
    fn obey<K: Sink>(&mut self, room: &mut [u8; MOST_BYTES], sink: &mut K) -> Result<(), ServeFault>
        requires { IsDevice self.old }
        ensures reader { self.new.reader ≡ self.old.reader }
        ensures obeyed { (d : devised.Device) → StandsFor self.old d → IsObeyed d
            (beginning_of self.old.reader) (content_in self.old.reader) (record {
              before = K.faults sink.old;
              after = K.faults sink.new;
            }) (K.contents sink.old) result self.new (K.contents sink.new) }
        ensures later { K.faults sink.old ≤ K.faults sink.new }
    {
        match said_in(self.reader.content(), room) {
            Some(Said::Nothing) => self.settle(sink),
            Some(Said::Bytes { count }) => self.reply(&room[..count.min(room.len())], sink),
            None => Err(ServeFault::BadFrame {
                at: self.reader.frame_begins(),
            }),
        }
    }

    // Reads the next frame and writes what it led to, without what became of sessions. Returns whether there was one.
    // There is room for the bytes of a line.
    fn take_next<S: Source, K: Sink>(
        &mut self,
        config: &ScriptConfig,
        room: &mut [u8; MOST_BYTES],
        source: &mut S,
        sink: &mut K,
    ) -> Result<bool, ServeFault>
        requires few { length config.now.requesters ≤ 8 }
        requires kinds { self.old.reader.kinds ≡ device_kinds }
        requires device { IsDevice self.old }
        ensures step { (d : devised.Device) → StandsFor self.old d → IfOk result
            (λ more. IsStep config.now [] d self.old (S.remaining source.old) (K.contents sink.old)
            more self.new (S.remaining source.new) (K.contents sink.new)) }
        ensures fault { (d : devised.Device) → StandsFor self.old d → IfErr result
            (λ fault. IsStepFault config.now [] d self.old (S.remaining source.old)
            (K.contents sink.old) (record {
              read_before = S.faults source.old;
              read_after = S.faults source.new;
              written_before = K.faults sink.old;
              written_after = K.faults sink.new;
            }) fault self.new (S.remaining source.new) (K.contents sink.new)) }
        ensures read_later { S.faults source.old ≤ S.faults source.new }
        ensures written_later { K.faults sink.old ≤ K.faults sink.new }
    {
        match self.reader.next(source) {
            Ok(None) => Ok(false),
            Ok(Some(FrameKind::Packet)) => match self.take_packet(config, sink) {
                Ok(()) => Ok(true),
                Err(fault) => Err(fault),
            },
            Ok(Some(FrameKind::Tick(seconds))) => match self.pass(seconds, sink) {
                Ok(()) => Ok(true),
                Err(fault) => Err(fault),
            },
            Ok(Some(FrameKind::Command)) => match self.obey(room, sink) {
                Ok(()) => Ok(true),
                Err(fault) => Err(fault),
            },
            Err(fault) => Err(fault_of(fault)),
        }
    }

    // Writes what became of the sessions with requester `q` since they were watched.
    fn tell_changes<K: Sink>(
        &self,
        watch: &mut SessionWatch,
        q: u8,
        sink: &mut K,
    ) -> Result<(), ServeFault>
        requires few { q ≤ 8 }
        ensures whole { (before : Responding) (d : devised.Device) → StandsFor self.now d
            → marks_in watch.old ≡ marks_at (connection_of watch.old.eid.number before.connections)
            → OnOk result (Takes (K.contents sink.old)
            (frames_of (told_changes q (changes_at watch.old.eid.number before d.responder)))
            (K.contents sink.new)) }
        ensures prefix { (before : Responding) (d : devised.Device) → StandsFor self.now d
            → marks_in watch.old ≡ marks_at (connection_of watch.old.eid.number before.connections)
            → OnErr result (TakesPrefix (K.contents sink.old)
            (frames_of (told_changes q (changes_at watch.old.eid.number before d.responder)))
            (K.contents sink.new)) }
        ensures blamed { IfErr result (λ fault. fault ≡ WriteFault) }
        ensures fault { OnErr result (HasFault (K.faults sink.old) (K.faults sink.new)) }
        ensures later { K.faults sink.old ≤ K.faults sink.new }
    {
        let changes = watch.changes(&self.responder);
        match write_changes(sink, q, &changes) {
            Ok(()) => Ok(()),
            Err(_) => Err(ServeFault::WriteFault),
        }
    }

    // Reads the next frame and writes what it led to, and behind it what became of the sessions with these requesters,
    // the first of the configuration. Returns whether there was one. There is room for the bytes of a line.
    fn take_watched<S: Source, K: Sink>(
        &mut self,
        config: &ScriptConfig,
        watched: &[ReqPart],
        room: &mut [u8; MOST_BYTES],
        source: &mut S,
        sink: &mut K,
    ) -> Result<bool, ServeFault>
        requires few { length config.now.requesters ≤ 8 }
        requires watched { length watched.now ≤ 8 }
        requires kinds { self.old.reader.kinds ≡ device_kinds }
        requires device { IsDevice self.old }
        ensures step { (d : devised.Device) → StandsFor self.old d → IfOk result
            (λ more. IsStep config.now watched.now d self.old (S.remaining source.old)
            (K.contents sink.old) more self.new (S.remaining source.new) (K.contents sink.new)) }
        ensures fault { (d : devised.Device) → StandsFor self.old d → IfErr result
            (λ fault. IsStepFault config.now watched.now d self.old (S.remaining source.old)
            (K.contents sink.old) (record {
              read_before = S.faults source.old;
              read_after = S.faults source.new;
              written_before = K.faults sink.old;
              written_after = K.faults sink.new;
            }) fault self.new (S.remaining source.new) (K.contents sink.new)) }
        ensures read_later { S.faults source.old ≤ S.faults source.new }
        ensures written_later { K.faults sink.old ≤ K.faults sink.new }
    {
        let [others @ .., last] = watched else {
            return self.take_next(config, room, source, sink);
        };
        let mut watch = SessionWatch::new(&self.responder, last.eid);
        match self.take_watched(config, others, room, source, sink) {
            Ok(true) => match self.tell_changes(&mut watch, others.len() as u8 + 1, sink) {
                Ok(()) => Ok(true),
                Err(fault) => Err(fault),
            },
            Ok(false) => Ok(false),
            Err(fault) => Err(fault),
        }
    }

    // Reads the next frame and writes what it led to, and behind it what became of sessions. Returns whether there was
    // one. There is room for the bytes of a line.
    pub(crate) fn answer_next<S: Source, K: Sink>(
        &mut self,
        config: &ScriptConfig,
        room: &mut [u8; MOST_BYTES],
        source: &mut S,
        sink: &mut K,
    ) -> Result<bool, ServeFault>
        requires few { length config.now.requesters ≤ 8 }
        requires kinds { self.old.reader.kinds ≡ device_kinds }
        requires device { IsDevice self.old }
        ensures step { (d : devised.Device) → StandsFor self.old d → IfOk result
            (λ more. IsStep config.now config.now.requesters d self.old (S.remaining source.old)
            (K.contents sink.old) more self.new (S.remaining source.new) (K.contents sink.new)) }
        ensures fault { (d : devised.Device) → StandsFor self.old d → IfErr result
            (λ fault. IsStepFault config.now config.now.requesters d self.old
            (S.remaining source.old) (K.contents sink.old) (record {
              read_before = S.faults source.old;
              read_after = S.faults source.new;
              written_before = K.faults sink.old;
              written_after = K.faults sink.new;
            }) fault self.new (S.remaining source.new) (K.contents sink.new)) }
        ensures read_later { S.faults source.old ≤ S.faults source.new }
        ensures written_later { K.faults sink.old ≤ K.faults sink.new }
    {
        self.take_watched(config, config.requesters.as_slice(), room, source, sink)
    }
}
