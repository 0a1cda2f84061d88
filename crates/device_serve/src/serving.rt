ghost use Rattle.std.specs.Prelude.{◌≡◌, ◌≤◌, ◌-◌, ◌^◌, [], ℕ, List, Some, IfErr, OnOk, length};
ghost use Rattle.device_serve.specs.Devised as devised;
ghost use Rattle.device_serve.specs.Devised.{device_in_life, device_kinds};
ghost use Rattle.device_serve.specs.Standing.{IsCause, IsDevice, StandsFor};
ghost use Rattle.device_serve.specs.Streams.{IsDevised};
ghost use Rattle.frame_stream.specs.Frames.{stream_limit};
ghost use Rattle.frame_stream.specs.Frames.Ending.{Done};
ghost use Rattle.frame_stream.specs.Runs.{IsFresh};
ghost use Rattle.frame_stream.specs.Standing.{in_front, left_of};
ghost use Rattle.responder_serve.specs.Told.{IsLate, IsRefusal, IsUnread};

use crate::ServeFault;
use crate::device::Device;
use script_text::{MOST_BYTES, ScriptConfig};
use spdm_basis::{Sink, Source};
use std::alloc::Global;

/// Serves a stream of frames, of which the bytes `before` were read already, with an application that sees application
/// data before they are answered: reads the frames in order, gives packets (kind 1) to the responder of this configuration
/// with this seed, in the life of this boot number, and lets seconds pass (kind 2).
///
/// Of a packet that brings new application data the line `data qN SESSION H` is written, as a frame of kind 4, and the
/// packet waits. The next frame answers it: a line (kind 3) `reply H`, with these data, of which the line `r ok` or
/// `r fault WORD` is written, or `none`, without data; any other frame answers it without data and is then handled itself.
/// Where no packet waits such a line leads to nothing. A packet that waits at the end of the stream is not answered. Of
/// each packet that is given to the responder the line `to r ..` is written, and the packets of its answer as frames of
/// kind 1, before the next read. Behind what a frame leads to stands a line `session qN SESSION WORD` for each session that
/// it changed: it `began`, is `opened` or `gone`, or was `replaced` by another one, whose id follows.
///
/// After `Ok` the stream was read to its end and all was written. Returns `BadFrame` exactly when a frame has another
/// kind, is cut by the end of input, or is a line that is neither `reply H` nor `none`; and `TooLong` exactly when the
/// stream goes on beyond 2^40 bytes without one; what all frames in front led to is written then. `ReadFault` and
/// `WriteFault` are returned only if the `faults` count of the source or the sink rose; after the second a prefix was
/// written. `Responder` has the first fault of the configuration, of which one that was read from a text has none.
/// Allocates only before the first byte is read (read, not proved).
pub fn serve_device<S: Source, K: Sink>(
    alloc: Global,
    config: &ScriptConfig,
    seed: [u8; 32],
    boot: u32,
    before: &[u8],
    source: &mut S,
    sink: &mut K,
) -> Result<(), ServeFault>
    requires few { length config.now.requesters ≤ 8 }
    requires boot { boot ≤ 2 ^ 24 - 2 }
    ensures served { OnOk result (IsDevised config.now (device_in_life config.now seed boot)
        (in_front before.now (S.remaining source.old)) (K.contents sink.old)
        (K.contents sink.new) Done) }
    ensures end { OnOk result ((left : List ℕ) → S.remaining source.old ≡ Some left
        → S.remaining source.new ≡ Some []) }
    ensures fault { IfErr result (IsCause config.now (device_in_life config.now seed boot)
        (in_front before.now (S.remaining source.old)) (K.contents sink.old) (K.contents sink.new)
        (record {
          read_before = S.faults source.old;
          read_after = S.faults source.new;
          written_before = K.faults sink.old;
          written_after = K.faults sink.new;
        })) }
    ensures refused { IfErr result (IsRefusal config.now) }
    ensures unread { IfErr result (IsUnread (S.remaining source.old) (S.remaining source.new)) }
    ensures read_later { S.faults source.old ≤ S.faults source.new }
    ensures written_later { K.faults sink.old ≤ K.faults sink.new }
{
    match Device::new(alloc, config, seed, boot, before) {
        Ok(device) => match run(device, config, source, sink) {
            Ok(()) => Ok(()),
            Err(fault) => Err(fault),
        },
        Err(fault) => Err(fault),
    }
}

// Answers all frames.
fn run<S: Source, K: Sink>(
    device: Device,
    config: &ScriptConfig,
    source: &mut S,
    sink: &mut K,
) -> Result<(), ServeFault>
    requires few { length config.now.requesters ≤ 8 }
    requires fresh { IsFresh device_kinds stream_limit device.reader }
    requires device { IsDevice device }
    ensures served { (d : devised.Device) → StandsFor device d → OnOk result
        (IsDevised config.now d (left_of device.reader (S.remaining source.old))
        (K.contents sink.old) (K.contents sink.new) Done) }
    ensures end { OnOk result ((left : List ℕ) → S.remaining source.old ≡ Some left
        → S.remaining source.new ≡ Some []) }
    ensures fault { (d : devised.Device) → StandsFor device d → IfErr result
        (IsCause config.now d (left_of device.reader (S.remaining source.old))
        (K.contents sink.old) (K.contents sink.new) (record {
          read_before = S.faults source.old;
          read_after = S.faults source.new;
          written_before = K.faults sink.old;
          written_after = K.faults sink.new;
        })) }
    ensures late { IfErr result IsLate }
    ensures read_later { S.faults source.old ≤ S.faults source.new }
    ensures written_later { K.faults sink.old ≤ K.faults sink.new }
{
    let mut device = device;
    let mut room = [0; MOST_BYTES];
    loop {
        match device.answer_next(config, &mut room, source, sink) {
            Ok(true) => {}
            Ok(false) => return Ok(()),
            Err(fault) => return Err(fault),
        }
    }
}
