ghost use Rattle.std.specs.Prelude.{◌≤◌, OnOk, OnErr};
ghost use Rattle.frame_stream.specs.Packets.{AreShort, packet_frames};
ghost use Rattle.spdm_basis.specs.Stream.{HasFault, Takes, TakesPrefix};

use crate::write_packet_frame;
use mctp_framing::PacketList;
use spdm_basis::{OutFault, Sink};

/// Writes packets of at most 65,535 bytes each as frames, in order. After `WriteFault` (only if the sink's `faults`
/// count rose) a prefix of the frames was written. Never allocates (read, not proved).
pub fn write_packet_frames<K: Sink>(sink: &mut K, packets: &PacketList) -> Result<(), OutFault>
    requires { AreShort packets.now }
    ensures whole { OnOk result (Takes (K.contents sink.old) (packet_frames packets.now)
        (K.contents sink.new)) }
    ensures prefix { OnErr result (TakesPrefix (K.contents sink.old) (packet_frames packets.now)
        (K.contents sink.new)) }
    ensures fault { OnErr result (HasFault (K.faults sink.old) (K.faults sink.new)) }
    ensures later { K.faults sink.old ≤ K.faults sink.new }
{
    for index in 0..packets.len() {
        let Some(packet) = packets.get(index) else {
            unreachable!()
        };
        if let Err(fault) = write_packet_frame(sink, packet) {
            return Err(fault);
        }
    }
    Ok(())
}
