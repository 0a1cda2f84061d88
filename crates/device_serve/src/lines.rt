ghost use Rattle.std.specs.Prelude.{◌≤◌, [], ◌∷◌, OnOk, OnErr, length, map};
ghost use Rattle.frame_stream.specs.Frames.{counted};
ghost use Rattle.device_serve.specs.Devised.{frames_of};
ghost use Rattle.device_serve.specs.Devised.Writing.{Sends, Tells};
ghost use Rattle.frame_stream.specs.Packets.{AreShort};
ghost use Rattle.requester_drive.specs.Driven.{without_feed};
ghost use Rattle.spdm_basis.specs.Stream.{HasFault, Takes, TakesPrefix};
ghost use Rattle.spdm_grammar.specs.Lines.Line.{Data, Reply, ToResponder};
ghost use Rattle.spdm_grammar.specs.Lines.Whose.{Requester};
ghost use Rattle.spdm_grammar.specs.declared.names.TheConstants.{MAX_MESSAGE_SIZE};
ghost use Rattle.trace_text.specs.Whose.{fault_of};

use frame_stream::{write_line_frame, write_packet_frames};
use mctp_framing::PacketList;
use responder::{Heard, ReplyFault};
use script_text::{line_data, line_heard, line_reply};
use spdm_basis::{Line, OutFault, SessionId, Sink};

// Writes a line as a frame, without its line feed.
fn write_line<K: Sink>(sink: &mut K, line: &Line) -> Result<(), OutFault>
    ensures whole { OnOk result (Takes (K.contents sink.old) (4 ∷ counted (without_feed line.now))
        (K.contents sink.new)) }
    ensures prefix { OnErr result (TakesPrefix (K.contents sink.old)
        (4 ∷ counted (without_feed line.now)) (K.contents sink.new)) }
    ensures fault { OnErr result (HasFault (K.faults sink.old) (K.faults sink.new)) }
    ensures later { K.faults sink.old ≤ K.faults sink.new }
{
    let text = line.as_slice();
    let (words, _) = text.split_at(text.len().saturating_sub(1));
    write_line_frame(sink, words)
}

/// Writes the line of application data that requester `q` sends in a session. After `WriteFault` (only if the sink's
/// `faults` count rose) a prefix of it was written. Never allocates (read, not proved).
pub(crate) fn write_data<K: Sink>(
    sink: &mut K,
    q: u8,
    id: SessionId,
    bytes: &[u8],
) -> Result<(), OutFault>
    requires { length bytes.now ≤ MAX_MESSAGE_SIZE }
    ensures whole { OnOk result (Takes (K.contents sink.old)
        (frames_of (Tells (Data (Requester q) id bytes.now) ∷ [])) (K.contents sink.new)) }
    ensures prefix { OnErr result (TakesPrefix (K.contents sink.old)
        (frames_of (Tells (Data (Requester q) id bytes.now) ∷ [])) (K.contents sink.new)) }
    ensures fault { OnErr result (HasFault (K.faults sink.old) (K.faults sink.new)) }
    ensures later { K.faults sink.old ≤ K.faults sink.new }
{
    let mut line = Line::new();
    line_data(q, false, id, bytes, &mut line);
    write_line(sink, &line)
}

/// Writes the line that tells whether data were queued. The fault is that of `write_data`.
pub(crate) fn write_reply<K: Sink>(
    sink: &mut K,
    answer: &Result<(), ReplyFault>,
) -> Result<(), OutFault>
    ensures whole { OnOk result (Takes (K.contents sink.old)
        (frames_of (Tells (Reply (fault_of answer.now)) ∷ [])) (K.contents sink.new)) }
    ensures prefix { OnErr result (TakesPrefix (K.contents sink.old)
        (frames_of (Tells (Reply (fault_of answer.now)) ∷ [])) (K.contents sink.new)) }
    ensures fault { OnErr result (HasFault (K.faults sink.old) (K.faults sink.new)) }
    ensures later { K.faults sink.old ≤ K.faults sink.new }
{
    let mut line = Line::new();
    line_reply(answer, &mut line);
    write_line(sink, &line)
}

/// Writes what a packet led to: its line, and the packets that were sent. The fault is that of `write_data`.
pub(crate) fn write_heard<K: Sink>(
    sink: &mut K,
    heard: &Heard,
    sent: &PacketList,
) -> Result<(), OutFault>
    requires { AreShort sent.now }
    ensures whole { OnOk result (Takes (K.contents sink.old)
        (frames_of (Tells (ToResponder heard.now) ∷ map Sends sent.now))
        (K.contents sink.new)) }
    ensures prefix { OnErr result (TakesPrefix (K.contents sink.old)
        (frames_of (Tells (ToResponder heard.now) ∷ map Sends sent.now))
        (K.contents sink.new)) }
    ensures fault { OnErr result (HasFault (K.faults sink.old) (K.faults sink.new)) }
    ensures later { K.faults sink.old ≤ K.faults sink.new }
{
    let mut line = Line::new();
    line_heard(heard, &mut line);
    match write_line(sink, &line) {
        Ok(()) => write_packet_frames(sink, sent),
        Err(fault) => Err(fault),
    }
}
