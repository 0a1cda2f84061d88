ghost use Rattle.std.specs.Prelude.{◌≡◌, ◌++◌, OnOk};
ghost use Rattle.script_ends.specs.Told.{event_lines};
ghost use Rattle.link_world.specs.Told.{heard_lines};
ghost use Rattle.link_world.specs.Written.{text_of};
ghost use Rattle.trace_text.specs.Spelling.{id_word, with_word};
ghost use Rattle.trace_text.specs.TraceLines.{line_text};
ghost use Rattle.trace_text.specs.Whose.{fault_of};
ghost use Rattle.spdm_grammar.specs.Lines.Whose.{Requester, Responder};
ghost use Rattle.spdm_grammar.specs.Lines.Line.{At, Command, Data, NoPacket, Packet, Record, Reply, ToNobody, ToRequester, ToResponder};

use crate::event_text::EventText;
use script_text::{
    add_hex, add_number, add_requester, add_word, end_text_line, line_at, line_command, line_event,
    line_heard, line_no_packet, line_nobody, line_reply,
};
use spdm_basis::{Bytes, OutOfMemory, SessionId};
use spdm_grammar::{CommandFault, Event, Finished, Heard, ReplyFault};

/// Adds the line `@N` in front of the lines of the event that stands on line N of the script.
pub(crate) fn push_at(number: u32, text: &mut EventText) -> Result<(), OutOfMemory>
    ensures { OnOk result (text.new ≡ text.old ++ line_text (At number)) }
{
    text.line.clear();
    line_at(number, &mut text.line);
    text.text.extend(text.line.as_slice())
}

/// Adds the line of a command of requester `q`.
pub(crate) fn push_command(
    q: u8,
    answer: &Result<(), CommandFault>,
    text: &mut EventText,
) -> Result<(), OutOfMemory>
    ensures { OnOk result (text.new ≡ text.old ++ line_text (Command q (fault_of answer.now))) }
{
    text.line.clear();
    line_command(q, answer, &mut text.line);
    text.text.extend(text.line.as_slice())
}

/// Adds the line of application data that were queued, or not.
pub(crate) fn push_reply(
    answer: &Result<(), ReplyFault>,
    text: &mut EventText,
) -> Result<(), OutOfMemory>
    ensures { OnOk result (text.new ≡ text.old ++ line_text (Reply (fault_of answer.now))) }
{
    text.line.clear();
    line_reply(answer, &mut text.line);
    text.text.extend(text.line.as_slice())
}

/// Adds the line of a packet whose destination is no configured endpoint.
pub(crate) fn push_nobody(text: &mut EventText) -> Result<(), OutOfMemory>
    ensures { OnOk result (text.new ≡ text.old ++ line_text ToNobody) }
{
    text.line.clear();
    line_nobody(&mut text.line);
    text.text.extend(text.line.as_slice())
}

/// Adds the line of a packet that was never sent.
pub(crate) fn push_no_packet(number: u32, text: &mut EventText) -> Result<(), OutOfMemory>
    ensures { OnOk result (text.new ≡ text.old ++ line_text (NoPacket number)) }
{
    text.line.clear();
    line_no_packet(number, &mut text.line);
    text.text.extend(text.line.as_slice())
}

/// Adds the line of a packet that was sent.
#[tactic(auto, unfolding(trace_text::specs::TraceLines::line_text))]
pub(crate) fn push_packet(number: u32, bytes: &[u8], text: &mut Bytes) -> Result<(), OutOfMemory>
    ensures { OnOk result (text.new ≡ text.old ++ line_text (Packet number bytes.now)) }
{
    text.extend(b"packet")?;
    add_number(u64::from(number), text)?;
    add_hex(bytes, text)?;
    end_text_line(text)
}

// Puts the id of a session after the words of the last line of a text.
fn add_id(id: SessionId, text: &mut Bytes) -> Result<(), OutOfMemory>
    ensures { OnOk result (text.new ≡ with_word text.old (id_word id)) }
{
    add_hex(&id.bytes(), text)
}

// Adds the line of application data that the responder took in a session with requester `q`.
#[tactic(auto, unfolding(trace_text::specs::TraceLines::line_text))]
fn push_taken(q: u8, id: SessionId, bytes: &[u8], text: &mut Bytes) -> Result<(), OutOfMemory>
    ensures { OnOk result (text.new ≡ text.old ++ line_text (Data (Responder q) id bytes.now)) }
{
    text.extend(b"data")?;
    add_word(b"r", text)?;
    add_requester(q, text)?;
    add_id(id, text)?;
    add_hex(bytes, text)?;
    end_text_line(text)
}

// Adds the line of application data that requester `q` took in a session.
#[tactic(auto, unfolding(trace_text::specs::TraceLines::line_text))]
fn push_answer(q: u8, id: SessionId, bytes: &[u8], text: &mut Bytes) -> Result<(), OutOfMemory>
    ensures { OnOk result (text.new ≡ text.old ++ line_text (Data (Requester q) id bytes.now)) }
{
    text.extend(b"data")?;
    add_requester(q, text)?;
    add_id(id, text)?;
    add_hex(bytes, text)?;
    end_text_line(text)
}

// Adds the line of a measurement record that requester `q` took.
#[tactic(auto, unfolding(trace_text::specs::TraceLines::line_text))]
fn push_record(q: u8, bytes: &[u8], text: &mut Bytes) -> Result<(), OutOfMemory>
    ensures { OnOk result (text.new ≡ text.old ++ line_text (Record q bytes.now)) }
{
    text.extend(b"record")?;
    add_requester(q, text)?;
    add_hex(bytes, text)?;
    end_text_line(text)
}

/// Adds the lines of a packet that was given to the responder, from requester `q`. `last` are the application data that
/// the responder took last.
pub(crate) fn push_heard(
    q: u8,
    heard: Heard,
    last: &[u8],
    text: &mut EventText,
) -> Result<(), OutOfMemory>
    ensures { OnOk result (text.new ≡ text.old ++ text_of (heard_lines q heard last.now)) }
{
    text.line.clear();
    line_heard(&heard, &mut text.line);
    text.text.extend(text.line.as_slice())?;
    match heard {
        Heard::Taken(id) => push_taken(q, id, last, &mut text.text),
        _ => Ok(()),
    }
}

/// Adds the lines of a packet that was given to requester `q`. `last` are the application data or the measurement
/// record that it took last.
pub(crate) fn push_event(
    q: u8,
    event: Event,
    last: &[u8],
    text: &mut EventText,
) -> Result<(), OutOfMemory>
    ensures { OnOk result (text.new ≡ text.old ++ text_of (event_lines q event last.now)) }
{
    text.line.clear();
    line_event(q, &event, &mut text.line);
    text.text.extend(text.line.as_slice())?;
    match event {
        Event::Done(Finished::Answered(id)) => push_answer(q, id, last, &mut text.text),
        Event::Done(Finished::Measured(_)) => push_record(q, last, &mut text.text),
        _ => Ok(()),
    }
}
