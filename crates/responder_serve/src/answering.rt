ghost use Rattle.std.specs.Prelude.{◌≡◌};
ghost use Rattle.responder_serve.specs.Told.{told_of};

use crate::ServeFault;
use crate::making::new_responder;
use frame_stream::{FrameFault, FrameKind, FrameReader, Kinds, write_packet_frames};
use mctp_framing::PacketList;
use responder::Responder;
use script_text::ScriptConfig;
use spdm_basis::{Sink, Source};
use std::alloc::Global;

// A responder reads packets and seconds that passed.
const SERVED: Kinds = Kinds {
    ticks: true,
    commands: false,
};

/// A responder, the reader of its stream and room for the packets of an answer.
#[derive(Drop)]
pub(crate) struct Server {
    pub(crate) responder: Responder,
    pub(crate) reader: FrameReader,
    pub(crate) out: PacketList,
}

// The fault of a call, as it is reported.
fn fault_of(fault: FrameFault) -> ServeFault
    ensures { result ≡ told_of fault }
{
    match fault {
        FrameFault::ReadFault => ServeFault::ReadFault,
        FrameFault::TooLong => ServeFault::TooLong,
        FrameFault::BadFrame { at } => ServeFault::BadFrame { at },
    }
}

impl Server {
    ghost use Rattle.std.specs.Prelude.{◌≡◌, ◌≤◌, ◌-◌, ◌^◌, IfErr, IfOk, OnErr};
    ghost use Rattle.frame_stream.specs.Frames.{stream_limit};
    ghost use Rattle.frame_stream.specs.Standing.{IsNew};
    ghost use Rattle.responder.specs.Standing.{StandsFor};
    ghost use Rattle.responder_machine.specs.Responding.{Responding};
    ghost use Rattle.responder_serve.specs.Served.{responder_in_life, served_kinds};
    ghost use Rattle.responder_serve.specs.Standing.{IsKept, IsPacketAnswered, IsStep, IsStepFault};
    ghost use Rattle.responder_serve.specs.Told.{IsEarly};
    ghost use Rattle.spdm_basis.specs.Stream.{HasFault};

    // The responder of a configuration with this seed, in the life of this boot number, and its stream, of which some
    // bytes were read already. Allocates all its memory here (read, not proved).
    pub(crate) fn new(
        alloc: Global,
        config: &ScriptConfig,
        seed: [u8; 32],
        boot: u32,
        before: &[u8],
    ) -> Result<Server, ServeFault>
        requires { boot ≤ 2 ^ 24 - 2 }
        ensures stands { IfOk result
            (λ server. StandsFor server.responder (responder_in_life config.now seed boot)) }
        ensures reader { IfOk result
            (λ server. IsNew served_kinds stream_limit before.now server.reader) }
        ensures fault { IfErr result (IsEarly config.now) }
    {
        let Ok(reader) = FrameReader::new(alloc, SERVED, before) else {
            return Err(ServeFault::OutOfMemory);
        };
        let Ok(out) = PacketList::new(alloc) else {
            return Err(ServeFault::OutOfMemory);
        };
        match new_responder(alloc, config, seed, boot) {
            Ok(responder) => Ok(Server {
                responder,
                reader,
                out,
            }),
            Err(fault) => Err(fault),
        }
    }

    // Gives the packet that was read to the responder, and writes its answer.
    fn answer_packet<K: Sink>(&mut self, sink: &mut K) -> Result<(), ServeFault>
        requires { IsKept self.old.responder }
        ensures reader { self.new.reader ≡ self.old.reader }
        ensures answered { (r : Responding) → StandsFor self.old.responder r
            → IsPacketAnswered r self.old (K.contents sink.old) result self.new
            (K.contents sink.new) }
        ensures fault { OnErr result (HasFault (K.faults sink.old) (K.faults sink.new)) }
        ensures later { K.faults sink.old ≤ K.faults sink.new }
    {
        let _ = self
            .responder
            .on_packet(self.reader.content(), &mut self.out);
        match write_packet_frames(sink, &self.out) {
            Ok(()) => Ok(()),
            Err(_) => Err(ServeFault::WriteFault),
        }
    }

    // Reads the next frame and writes its answer. Returns whether there was one.
    pub(crate) fn answer_next<S: Source, K: Sink>(
        &mut self,
        source: &mut S,
        sink: &mut K,
    ) -> Result<bool, ServeFault>
        requires kinds { self.old.reader.kinds ≡ served_kinds }
        requires kept { IsKept self.old.responder }
        ensures step { (r : Responding) → StandsFor self.old.responder r → IfOk result
            (λ more. IsStep r self.old (S.remaining source.old) (K.contents sink.old) more self.new
            (S.remaining source.new) (K.contents sink.new)) }
        ensures fault { (r : Responding) → StandsFor self.old.responder r → IfErr result
            (λ fault. IsStepFault r self.old (S.remaining source.old) (K.contents sink.old) (record {
              read_before = S.faults source.old;
              read_after = S.faults source.new;
              written_before = K.faults sink.old;
              written_after = K.faults sink.new;
            }) fault self.new (S.remaining source.new) (K.contents sink.new)) }
        ensures read_later { S.faults source.old ≤ S.faults source.new }
        ensures written_later { K.faults sink.old ≤ K.faults sink.new }
    {
        match self.reader.next(source) {
            Ok(None) => Ok(false),
            Ok(Some(FrameKind::Packet)) => match self.answer_packet(sink) {
                Ok(()) => Ok(true),
                Err(fault) => Err(fault),
            },
            Ok(Some(FrameKind::Tick(seconds))) => {
                self.responder.tick(seconds);
                Ok(true)
            }
            Ok(Some(FrameKind::Command)) => unreachable!(),
            Err(fault) => Err(fault_of(fault)),
        }
    }
}
