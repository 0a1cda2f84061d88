ghost use Rattle.std.specs.Prelude.{◌≡◌, ◌≤◌, ◌<◌, ◌+◌, ◌^◌, ℕ, OnOk, OnErr, IsErrOf};
ghost use Rattle.capture_text.specs.Written.{packet_lines};
ghost use Rattle.spdm_basis.specs.Stream.{HasFault, Takes, TakesPrefix};
ghost use Rattle.spdm_grammar.specs.Lines.Line.{Packet};
ghost use Rattle.trace_text.specs.TraceLines.{line_text};

use spdm_basis::{Bytes, OutOfMemory, Sink, write_all};
use std::alloc::Global;
use thiserror::Error;
use trace_text::{add_hex, add_number, end_text_line};

/// Why not all lines were written.
#[derive(Clone, Copy, Debug, PartialEq, Eq, Error)]
pub enum WriteError {
    #[error("writing failed")]
    WriteFault,
    #[error("out of memory")]
    OutOfMemory,
}

// Overwrites a line with that of a packet.
#[tactic(auto, unfolding(trace_text::specs::TraceLines::line_text))]
fn set_packet_line(number: usize, packet: &[u8], line: &mut Bytes) -> Result<(), OutOfMemory>
    ensures { OnOk result (line.new ≡ line_text (Packet number packet.now)) }
{
    line.clear();
    line.extend(b"packet")?;
    add_number(number as u64, line)?;
    add_hex(packet, line)?;
    end_text_line(line)
}

// Writes the line of a packet.
fn write_packet_line<K: Sink>(
    number: usize,
    packet: &[u8],
    line: &mut Bytes,
    sink: &mut K,
) -> Result<(), WriteError>
    ensures whole { OnOk result (Takes (K.contents sink.old) (line_text (Packet number packet.now))
        (K.contents sink.new)) }
    ensures prefix { OnErr result (TakesPrefix (K.contents sink.old)
        (line_text (Packet number packet.now)) (K.contents sink.new)) }
    ensures fault { IsErrOf result WriteError.WriteFault
        → HasFault (K.faults sink.old) (K.faults sink.new) }
    ensures later { K.faults sink.old ≤ K.faults sink.new }
{
    let Ok(()) = set_packet_line(number, packet, line) else {
        return Err(WriteError::OutOfMemory);
    };
    match write_all(sink, line.as_slice()) {
        Ok(()) => Ok(()),
        Err(_) => Err(WriteError::WriteFault),
    }
}

/// Writes the line of each packet, counted from 1. After an `Err` a prefix of the lines was written; `WriteFault` only if
/// the sink's `faults` count rose.
pub fn write_packet_lines<K: Sink>(
    alloc: Global,
    packets: &[Bytes],
    sink: &mut K,
) -> Result<(), WriteError>
    ensures whole { OnOk result (Takes (K.contents sink.old) (packet_lines 1 packets.now)
        (K.contents sink.new)) }
    ensures prefix { OnErr result (TakesPrefix (K.contents sink.old) (packet_lines 1 packets.now)
        (K.contents sink.new)) }
    ensures fault { IsErrOf result WriteError.WriteFault
        → HasFault (K.faults sink.old) (K.faults sink.new) }
    ensures later { K.faults sink.old ≤ K.faults sink.new }
{
    let mut line = Bytes::new(alloc);
    for (index, packet) in packets.iter().enumerate() {
        match write_packet_line(index + 1, packet.as_slice(), &mut line, sink) {
            Ok(()) => {}
            Err(fault) => return Err(fault),
        }
    }
    Ok(())
}
