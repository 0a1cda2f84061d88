ghost use Rattle.std.specs.Prelude.{◌≤◌, ◌++◌, OnOk, OnErr};
ghost use Rattle.frame_stream.specs.Packets.{AreShort, packet_frames};
ghost use Rattle.requester_attest.specs.Words.{progress_frame};
ghost use Rattle.spdm_basis.specs.Stream.{HasFault, Takes, TakesPrefix};

use crate::words::appraisal_line;
use attestor::Progressed;
use frame_stream::{write_line_frame, write_packet_frames};
use mctp_framing::PacketList;
use spdm_basis::{OutFault, Sink};

// Writes the line of what a packet came to as a frame, if it has one.
fn write_progress<K: Sink>(sink: &mut K, progress: Progressed) -> Result<(), OutFault>
    ensures whole { OnOk result (Takes (K.contents sink.old) (progress_frame progress)
        (K.contents sink.new)) }
    ensures prefix { OnErr result (TakesPrefix (K.contents sink.old) (progress_frame progress)
        (K.contents sink.new)) }
    ensures fault { OnErr result (HasFault (K.faults sink.old) (K.faults sink.new)) }
    ensures later { K.faults sink.old ≤ K.faults sink.new }
{
    match progress {
        Progressed::Going => Ok(()),
        Progressed::Verdict(appraisal) => {
            let line = appraisal_line(appraisal);
            write_line_frame(sink, line.as_slice())
        }
        Progressed::Failed => write_line_frame(sink, b"failed"),
    }
}

/// Writes what a call came to: the line of what was decided at it, if something was, and the packets that were sent. After
/// `WriteFault` (only if the sink's `faults` count rose) a prefix of it was written. Never allocates (read, not proved).
pub(crate) fn write_step<K: Sink>(
    sink: &mut K,
    progress: Progressed,
    sent: &PacketList,
) -> Result<(), OutFault>
    requires { AreShort sent.now }
    ensures whole { OnOk result (Takes (K.contents sink.old)
        (progress_frame progress ++ packet_frames sent.now) (K.contents sink.new)) }
    ensures prefix { OnErr result (TakesPrefix (K.contents sink.old)
        (progress_frame progress ++ packet_frames sent.now) (K.contents sink.new)) }
    ensures fault { OnErr result (HasFault (K.faults sink.old) (K.faults sink.new)) }
    ensures later { K.faults sink.old ≤ K.faults sink.new }
{
    match write_progress(sink, progress) {
        Ok(()) => write_packet_frames(sink, sent),
        Err(fault) => Err(fault),
    }
}
