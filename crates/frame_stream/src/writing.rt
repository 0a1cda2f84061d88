ghost use Rattle.std.specs.Prelude.{◌≡◌, ◌<◌, ◌≤◌, ◌^◌, ◌∷◌, length, OnOk, OnErr};
ghost use Rattle.frame_stream.specs.Frames.{counted};
ghost use Rattle.spdm_basis.specs.Stream.{HasFault, Takes, TakesPrefix};

use crate::kinds::{LINE, PACKET};
use spdm_basis::{OutFault, Sink, write_all};

// Writes a frame of counted bytes.
fn write_counted<K: Sink>(sink: &mut K, kind: u8, bytes: &[u8]) -> Result<(), OutFault>
    requires { length bytes.now < 2 ^ 16 }
    ensures whole { OnOk result (Takes (K.contents sink.old) (kind ∷ counted bytes.now)
        (K.contents sink.new)) }
    ensures prefix { OnErr result (TakesPrefix (K.contents sink.old) (kind ∷ counted bytes.now)
        (K.contents sink.new)) }
    ensures fault { OnErr result (HasFault (K.faults sink.old) (K.faults sink.new)) }
    ensures later { K.faults sink.old ≤ K.faults sink.new }
{
    let count = bytes.len();
    let head = [kind, (count % 256) as u8, (count / 256) as u8];
    match write_all(sink, &head) {
        Ok(()) => write_all(sink, bytes),
        Err(fault) => Err(fault),
    }
}

/// Writes a packet of at most 65,535 bytes as a frame: kind 1, its length in two bytes, little-endian, and its bytes.
/// After `WriteFault` (only if the sink's `faults` count rose) a prefix of the frame was written. Never allocates (read, not proved).
pub fn write_packet_frame<K: Sink>(sink: &mut K, packet: &[u8]) -> Result<(), OutFault>
    requires { length packet.now < 2 ^ 16 }
    ensures whole { OnOk result (Takes (K.contents sink.old) (1 ∷ counted packet.now)
        (K.contents sink.new)) }
    ensures prefix { OnErr result (TakesPrefix (K.contents sink.old) (1 ∷ counted packet.now)
        (K.contents sink.new)) }
    ensures fault { OnErr result (HasFault (K.faults sink.old) (K.faults sink.new)) }
    ensures later { K.faults sink.old ≤ K.faults sink.new }
{
    write_counted(sink, PACKET, packet)
}

/// Writes a line of at most 65,535 bytes as a frame: kind 4, its length in two bytes, little-endian, and its bytes. The
/// fault is that of `write_packet_frame`.
pub fn write_line_frame<K: Sink>(sink: &mut K, line: &[u8]) -> Result<(), OutFault>
    requires { length line.now < 2 ^ 16 }
    ensures whole { OnOk result (Takes (K.contents sink.old) (4 ∷ counted line.now)
        (K.contents sink.new)) }
    ensures prefix { OnErr result (TakesPrefix (K.contents sink.old) (4 ∷ counted line.now)
        (K.contents sink.new)) }
    ensures fault { OnErr result (HasFault (K.faults sink.old) (K.faults sink.new)) }
    ensures later { K.faults sink.old ≤ K.faults sink.new }
{
    write_counted(sink, LINE, line)
}
