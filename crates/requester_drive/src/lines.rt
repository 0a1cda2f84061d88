ghost use Rattle.std.specs.Prelude.{◌≤◌, ◌++◌, [], ◌∷◌, OnOk, OnErr, length};
ghost use Rattle.script_ends.specs.Told.{event_data, event_lines};
ghost use Rattle.frame_stream.specs.Frames.{counted};
ghost use Rattle.frame_stream.specs.Packets.{AreShort, packet_frames};
ghost use Rattle.requester_drive.specs.Driven.{line_frames, without_feed};
ghost use Rattle.trace_text.specs.Whose.{fault_of};
ghost use Rattle.spdm_basis.specs.Stream.{HasFault, Takes, TakesPrefix};
ghost use Rattle.spdm_grammar.specs.Lines.Line.{Command, Data, Record};
ghost use Rattle.spdm_grammar.specs.Lines.Whose.{Requester};
ghost use Rattle.spdm_grammar.specs.declared.names.TheConstants.{MAX_MESSAGE_SIZE};

use frame_stream::{write_line_frame, write_packet_frames};
use mctp_framing::PacketList;
use script_text::{line_command, line_data, line_event, line_record};
use spdm_basis::{Line, OutFault, SessionId, Sink};
use spdm_grammar::{CommandFault, Event, Finished};

// Writes a line as a frame, without its line feed.
fn write_line<K: Sink>(sink: &mut K, line: &Line) -> Result<(), OutFault>
    ensures whole { OnOk result (Takes (K.contents sink.old) (4 ∷ counted (without_feed line.now))
        (K.contents sink.new)) }
    ensures prefix { OnErr result (TakesPrefix (K.contents sink.old)
        (4 ∷ counted (without_feed line.now)) (K.contents sink.new)) }
    ensures fault { OnErr result (HasFault (K.faults sink.old) (K.faults sink.new)) }
    ensures later { K.faults sink.old ≤ K.faults sink.new }
{
    let text = line.as_slice();
    let (words, _) = text.split_at(text.len().saturating_sub(1));
    write_line_frame(sink, words)
}

// Writes the line of application data that came in a session.
fn write_data<K: Sink>(sink: &mut K, id: SessionId, bytes: &[u8]) -> Result<(), OutFault>
    requires { length bytes.now ≤ MAX_MESSAGE_SIZE }
    ensures whole { OnOk result (Takes (K.contents sink.old)
        (line_frames (Data (Requester 1) id bytes.now ∷ [])) (K.contents sink.new)) }
    ensures prefix { OnErr result (TakesPrefix (K.contents sink.old)
        (line_frames (Data (Requester 1) id bytes.now ∷ [])) (K.contents sink.new)) }
    ensures fault { OnErr result (HasFault (K.faults sink.old) (K.faults sink.new)) }
    ensures later { K.faults sink.old ≤ K.faults sink.new }
{
    let mut line = Line::new();
    line_data(1, false, id, bytes, &mut line);
    write_line(sink, &line)
}

// Writes the line of a measurement record that came.
fn write_record<K: Sink>(sink: &mut K, bytes: &[u8]) -> Result<(), OutFault>
    requires { length bytes.now ≤ MAX_MESSAGE_SIZE }
    ensures whole { OnOk result (Takes (K.contents sink.old)
        (line_frames (Record 1 bytes.now ∷ [])) (K.contents sink.new)) }
    ensures prefix { OnErr result (TakesPrefix (K.contents sink.old)
        (line_frames (Record 1 bytes.now ∷ [])) (K.contents sink.new)) }
    ensures fault { OnErr result (HasFault (K.faults sink.old) (K.faults sink.new)) }
    ensures later { K.faults sink.old ≤ K.faults sink.new }
{
    let mut line = Line::new();
    line_record(1, bytes, &mut line);
    write_line(sink, &line)
}

// Writes the line of the data or the measurement record that came with an event, if any came. `last` are the data or the
// record that came last.
fn write_came<K: Sink>(sink: &mut K, event: Event, last: &[u8]) -> Result<(), OutFault>
    requires { length last.now ≤ MAX_MESSAGE_SIZE }
    ensures whole { OnOk result (Takes (K.contents sink.old)
        (line_frames (event_data 1 event last.now)) (K.contents sink.new)) }
    ensures prefix { OnErr result (TakesPrefix (K.contents sink.old)
        (line_frames (event_data 1 event last.now)) (K.contents sink.new)) }
    ensures fault { OnErr result (HasFault (K.faults sink.old) (K.faults sink.new)) }
    ensures later { K.faults sink.old ≤ K.faults sink.new }
{
    match event {
        Event::Done(Finished::Answered(id)) => write_data(sink, id, last),
        Event::Done(Finished::Measured(_)) => write_record(sink, last),
        _ => Ok(()),
    }
}

// Writes the lines of a packet that led to this event.
fn write_event<K: Sink>(sink: &mut K, event: Event, last: &[u8]) -> Result<(), OutFault>
    requires { length last.now ≤ MAX_MESSAGE_SIZE }
    ensures whole { OnOk result (Takes (K.contents sink.old)
        (line_frames (event_lines 1 event last.now)) (K.contents sink.new)) }
    ensures prefix { OnErr result (TakesPrefix (K.contents sink.old)
        (line_frames (event_lines 1 event last.now)) (K.contents sink.new)) }
    ensures fault { OnErr result (HasFault (K.faults sink.old) (K.faults sink.new)) }
    ensures later { K.faults sink.old ≤ K.faults sink.new }
{
    let mut line = Line::new();
    line_event(1, &event, &mut line);
    match write_line(sink, &line) {
        Ok(()) => write_came(sink, event, last),
        Err(fault) => Err(fault),
    }
}

/// Writes what a packet led to: the line of the event, that of the data or the record that came with it, which are the
/// last that came, and the packets that were sent. After `WriteFault` (only if the sink's `faults` count rose) a prefix
/// of it was written. Never allocates (read, not proved).
pub(crate) fn write_given<K: Sink>(
    sink: &mut K,
    event: Event,
    last: &[u8],
    sent: &PacketList,
) -> Result<(), OutFault>
    requires last { length last.now ≤ MAX_MESSAGE_SIZE }
    requires short { AreShort sent.now }
    ensures whole { OnOk result (Takes (K.contents sink.old)
        (line_frames (event_lines 1 event last.now) ++ packet_frames sent.now)
        (K.contents sink.new)) }
    ensures prefix { OnErr result (TakesPrefix (K.contents sink.old)
        (line_frames (event_lines 1 event last.now) ++ packet_frames sent.now)
        (K.contents sink.new)) }
    ensures fault { OnErr result (HasFault (K.faults sink.old) (K.faults sink.new)) }
    ensures later { K.faults sink.old ≤ K.faults sink.new }
{
    match write_event(sink, event, last) {
        Ok(()) => write_packet_frames(sink, sent),
        Err(fault) => Err(fault),
    }
}

/// Writes what a command led to: its line, and the packets that were sent. The fault is that of `write_given`.
pub(crate) fn write_told<K: Sink>(
    sink: &mut K,
    answer: &Result<(), CommandFault>,
    sent: &PacketList,
) -> Result<(), OutFault>
    requires { AreShort sent.now }
    ensures whole { OnOk result (Takes (K.contents sink.old)
        (line_frames (Command 1 (fault_of answer.now) ∷ []) ++ packet_frames sent.now)
        (K.contents sink.new)) }
    ensures prefix { OnErr result (TakesPrefix (K.contents sink.old)
        (line_frames (Command 1 (fault_of answer.now) ∷ []) ++ packet_frames sent.now)
        (K.contents sink.new)) }
    ensures fault { OnErr result (HasFault (K.faults sink.old) (K.faults sink.new)) }
    ensures later { K.faults sink.old ≤ K.faults sink.new }
{
    let mut line = Line::new();
    line_command(1, answer, &mut line);
    match write_line(sink, &line) {
        Ok(()) => write_packet_frames(sink, sent),
        Err(fault) => Err(fault),
    }
}
