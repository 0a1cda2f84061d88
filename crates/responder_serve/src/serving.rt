ghost use Rattle.std.specs.Prelude.{◌≡◌, ◌≤◌, ◌-◌, ◌^◌, [], ℕ, List, Some, IfErr, OnOk};
ghost use Rattle.frame_stream.specs.Frames.{stream_limit};
ghost use Rattle.frame_stream.specs.Frames.Ending.{Done};
ghost use Rattle.frame_stream.specs.Runs.{IsFresh};
ghost use Rattle.frame_stream.specs.Standing.{in_front, left_of};
ghost use Rattle.responder.specs.Standing.{StandsFor};
ghost use Rattle.responder_machine.specs.Responding.{Responding};
ghost use Rattle.responder_serve.specs.Served.{IsServed, responder_in_life, served_kinds};
ghost use Rattle.responder_serve.specs.Standing.{IsCause, IsKept};
ghost use Rattle.responder_serve.specs.Told.{IsLate, IsRefusal, IsUnread};

use crate::ServeFault;
use crate::answering::Server;
use script_text::ScriptConfig;
use spdm_basis::{Sink, Source};
use std::alloc::Global;

/// Serves a stream of frames of which the bytes `before` were read already: reads the frames in order, gives packets
/// (kind 1) to the responder of this configuration with this seed, in the life of this boot number, and lets seconds
/// pass (kind 2), and writes the packets of each answer as frames of kind 1 before it reads on.
///
/// After `Ok` the stream was read to its end and all was written. Returns `BadFrame` exactly when a frame has another
/// kind or is cut by the end of input, and `TooLong` exactly when the stream goes on beyond 2^40 bytes without one; the
/// answers to all frames in front are written then. `ReadFault` and `WriteFault` are returned only if the `faults`
/// count of the source or the sink rose; after the second a prefix of the answers was written. `Responder` has the
/// first fault of the configuration, of which one that was read from a text has none. Allocates only before the first
/// byte is read (read, not proved).
pub fn serve<S: Source, K: Sink>(
    alloc: Global,
    config: &ScriptConfig,
    seed: [u8; 32],
    boot: u32,
    before: &[u8],
    source: &mut S,
    sink: &mut K,
) -> Result<(), ServeFault>
    requires { boot ≤ 2 ^ 24 - 2 }
    ensures served { OnOk result (IsServed (responder_in_life config.now seed boot)
        (in_front before.now (S.remaining source.old)) (K.contents sink.old)
        (K.contents sink.new) Done) }
    ensures end { OnOk result ((left : List ℕ) → S.remaining source.old ≡ Some left
        → S.remaining source.new ≡ Some []) }
    ensures fault { IfErr result (IsCause (responder_in_life config.now seed boot)
        (in_front before.now (S.remaining source.old)) (K.contents sink.old) (K.contents sink.new)
        (record {
          read_before = S.faults source.old;
          read_after = S.faults source.new;
          written_before = K.faults sink.old;
          written_after = K.faults sink.new;
        })) }
    ensures refused { IfErr result (IsRefusal config.now) }
    ensures unread { IfErr result (IsUnread (S.remaining source.old) (S.remaining source.new)) }
    ensures read_later { S.faults source.old ≤ S.faults source.new }
    ensures written_later { K.faults sink.old ≤ K.faults sink.new }
{
    match Server::new(alloc, config, seed, boot, before) {
        Ok(server) => match run(server, source, sink) {
            Ok(()) => Ok(()),
            Err(fault) => Err(fault),
        },
        Err(fault) => Err(fault),
    }
}

// Answers all frames.
fn run<S: Source, K: Sink>(server: Server, source: &mut S, sink: &mut K) -> Result<(), ServeFault>
    requires fresh { IsFresh served_kinds stream_limit server.reader }
    requires kept { IsKept server.responder }
    ensures served { (r : Responding) → StandsFor server.responder r → OnOk result
        (IsServed r (left_of server.reader (S.remaining source.old)) (K.contents sink.old)
        (K.contents sink.new) Done) }
    ensures end { OnOk result ((left : List ℕ) → S.remaining source.old ≡ Some left
        → S.remaining source.new ≡ Some []) }
    ensures fault { (r : Responding) → StandsFor server.responder r → IfErr result
        (IsCause r (left_of server.reader (S.remaining source.old)) (K.contents sink.old)
        (K.contents sink.new) (record {
          read_before = S.faults source.old;
          read_after = S.faults source.new;
          written_before = K.faults sink.old;
          written_after = K.faults sink.new;
        })) }
    ensures late { IfErr result IsLate }
    ensures read_later { S.faults source.old ≤ S.faults source.new }
    ensures written_later { K.faults sink.old ≤ K.faults sink.new }
{
    let mut server = server;
    loop {
        match server.answer_next(source, sink) {
            Ok(true) => {}
            Ok(false) => return Ok(()),
            Err(fault) => return Err(fault),
        }
    }
}
