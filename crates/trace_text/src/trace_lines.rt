//! The lines of a trace, with the words of outcomes and events. Those of phases, stages and causes are in
//! `trace_words.rt`.
ghost use Rattle.std.specs.Prelude.{◌≡◌, ◌≤◌, ◌+◌, ◌*◌, ◌++◌, ◌∷◌, [], length, codes, Some, None};
ghost use Rattle.std.specs.Bool.{if◌then◌else◌};
ghost use Rattle.trace_text.specs.Spelling.{with_words};
ghost use Rattle.trace_text.specs.TraceLines.{line_text, whose_words, heard_words, event_words, finished_words, view_words};
ghost use Rattle.trace_text.specs.Whose.{whose_of, fault_of};
ghost use Rattle.spdm_grammar.specs.Lines.Line.{State, Session, Command, Reply, ToResponder, ToRequester, ToNobody, Data, Record, Packet, NoPacket, At};
ghost use Rattle.spdm_grammar.specs.declared.names.TheConstants.{MAX_MESSAGE_SIZE};

use crate::print::{
    begin, begin_at, begin_requester, end_line, push_code, push_hash, push_hex, push_id,
    push_number, push_requester, push_word,
};
use crate::trace_words::{
    command_fault_word, phase_word, reply_fault_word, requester_ignored_word,
    responder_ignored_word, stage_word, stop_word,
};
use spdm_basis::{Line, SessionId};
use spdm_grammar::{CommandFault, Event, Finished, Heard, Phase, ReplyFault, SessionView};

// Begins a line with a word and an end: requester `q`, or the responder towards it.
fn begin_whose(word: &[u8], q: u8, responder: bool, out: &mut Line)
    requires { length word.now ≤ 20 }
    ensures text { out.new ≡ with_words word.now (whose_words (whose_of q responder)) }
    ensures length { length out.new ≤ 44 }
{
    begin(word, out);
    if responder {
        push_word(b"r", out);
    }
    push_requester(q, out);
}

/// The phase of an end: requester `q`, or the responder towards it.
#[tactic(auto, using(crate::proofs::Folding::with_words_append), unfolding(crate::specs::TraceLines::line_text))]
pub fn line_state(q: u8, responder: bool, phase: Phase, out: &mut Line)
    ensures { out.new ≡ line_text (State (whose_of q responder) phase) }
{
    begin_whose(b"state", q, responder, out);
    push_word(phase_word(phase), out);
    end_line(out);
}

/// The event of this line of the script follows.
#[tactic(auto, unfolding(crate::specs::TraceLines::line_text))]
pub fn line_at(number: u32, out: &mut Line)
    ensures { out.new ≡ line_text (At number) }
{
    begin_at(number, out);
    end_line(out);
}

/// A command of requester `q` was done, or not.
#[tactic(auto, unfolding(crate::specs::TraceLines::line_text))]
pub fn line_command(q: u8, answer: &Result<(), CommandFault>, out: &mut Line)
    ensures { out.new ≡ line_text (Command q (fault_of answer.now)) }
{
    begin_requester(q, out);
    match answer {
        Ok(()) => push_word(b"ok", out),
        Err(fault) => {
            push_word(b"fault", out);
            push_word(command_fault_word(*fault), out);
        }
    }
    end_line(out);
}

/// Application data was queued at the responder, or not.
#[tactic(auto, unfolding(crate::specs::TraceLines::line_text))]
pub fn line_reply(answer: &Result<(), ReplyFault>, out: &mut Line)
    ensures { out.new ≡ line_text (Reply (fault_of answer.now)) }
{
    begin(b"r", out);
    match answer {
        Ok(()) => push_word(b"ok", out),
        Err(fault) => {
            push_word(b"fault", out);
            push_word(reply_fault_word(*fault), out);
        }
    }
    end_line(out);
}

// Puts what a packet led to at the responder after the words of a line.
fn push_heard(heard: &Heard, out: &mut Line)
    requires { length out.old ≤ 100 }
    ensures text { out.new ≡ with_words out.old (heard_words heard.now) }
    ensures length { length out.new ≤ length out.old + 100 }
{
    match heard {
        Heard::Answered(code) => {
            push_word(b"answered", out);
            push_code(*code, out);
        }
        Heard::Taken(id) => {
            push_word(b"taken", out);
            push_id(*id, out);
        }
        Heard::Refused(code) => {
            push_word(b"refused", out);
            push_code(*code, out);
        }
        Heard::Unopened => push_word(b"unopened", out),
        Heard::Same => push_word(b"same", out),
        Heard::More => push_word(b"more", out),
        Heard::Ignored(why) => {
            push_word(b"ignored", out);
            push_word(responder_ignored_word(*why), out);
        }
    }
}

/// A packet was given to the responder.
#[tactic(auto, unfolding(crate::specs::TraceLines::line_text))]
pub fn line_heard(heard: &Heard, out: &mut Line)
    ensures { out.new ≡ line_text (ToResponder heard.now) }
{
    begin(b"to", out);
    push_word(b"r", out);
    push_heard(heard, out);
    end_line(out);
}

// Puts what a command came to after the words of a line.
fn push_finished(finished: &Finished, out: &mut Line)
    requires { length out.old ≤ 200 }
    ensures text { out.new ≡ with_words out.old (finished_words finished.now) }
    ensures length { length out.new ≤ length out.old + 100 }
{
    match finished {
        Finished::Connected => push_word(b"connected", out),
        Finished::Opened(id) => {
            push_word(b"opened", out);
            push_id(*id, out);
        }
        Finished::Answered(id) => {
            push_word(b"answered", out);
            push_id(*id, out);
        }
        Finished::Alive(id) => {
            push_word(b"alive", out);
            push_id(*id, out);
        }
        Finished::Updated(id) => {
            push_word(b"updated", out);
            push_id(*id, out);
        }
        Finished::Measured(count) => {
            push_word(b"measured", out);
            push_number(u64::from(*count), out);
        }
        Finished::Ended(id) => {
            push_word(b"ended", out);
            push_id(*id, out);
        }
    }
}

// Puts what a packet led to at a requester after the words of a line.
fn push_event(event: &Event, out: &mut Line)
    requires { length out.old ≤ 100 }
    ensures text { out.new ≡ with_words out.old (event_words event.now) }
    ensures length { length out.new ≤ length out.old + 200 }
{
    match event {
        Event::Progress => push_word(b"progress", out),
        Event::More => push_word(b"more", out),
        Event::Done(finished) => {
            push_word(b"done", out);
            push_finished(finished, out);
        }
        Event::Refused(code) => {
            push_word(b"refused", out);
            push_code(*code, out);
        }
        Event::Warned(code) => {
            push_word(b"warned", out);
            push_code(*code, out);
        }
        Event::Stopped(stop) => {
            push_word(b"stopped", out);
            push_word(stop_word(*stop), out);
        }
        Event::Lost(id, _) => {
            push_word(b"lost", out);
            push_id(*id, out);
        }
        Event::Ignored(why) => {
            push_word(b"ignored", out);
            push_word(requester_ignored_word(*why), out);
        }
    }
}

/// A packet was given to requester `q`.
#[tactic(auto, unfolding(crate::specs::TraceLines::line_text))]
pub fn line_event(q: u8, event: &Event, out: &mut Line)
    ensures { out.new ≡ line_text (ToRequester q event.now) }
{
    begin(b"to", out);
    push_requester(q, out);
    push_event(event, out);
    end_line(out);
}

/// A packet was given that is for no end.
#[tactic(auto, unfolding(crate::specs::TraceLines::line_text))]
pub fn line_nobody(out: &mut Line)
    ensures { out.new ≡ line_text ToNobody }
{
    begin(b"nobody", out);
    end_line(out);
}

/// Application data was taken in a session, at requester `q` or at the responder from it.
#[tactic(auto, using(crate::proofs::Folding::with_words_append), unfolding(crate::specs::TraceLines::line_text))]
pub fn line_data(q: u8, responder: bool, id: SessionId, bytes: &[u8], out: &mut Line)
    requires { length bytes.now ≤ MAX_MESSAGE_SIZE }
    ensures { out.new ≡ line_text (Data (whose_of q responder) id bytes.now) }
{
    begin_whose(b"data", q, responder, out);
    push_id(id, out);
    push_hex(bytes, out);
    end_line(out);
}

/// Requester `q` took a measurement record.
#[tactic(auto, unfolding(crate::specs::TraceLines::line_text))]
pub fn line_record(q: u8, bytes: &[u8], out: &mut Line)
    requires { length bytes.now ≤ MAX_MESSAGE_SIZE }
    ensures { out.new ≡ line_text (Record q bytes.now) }
{
    begin(b"record", out);
    push_requester(q, out);
    push_hex(bytes, out);
    end_line(out);
}

/// A packet was sent, with this number.
#[tactic(auto, unfolding(crate::specs::TraceLines::line_text))]
pub fn line_packet(number: u32, bytes: &[u8], out: &mut Line)
    requires { length bytes.now ≤ 1028 }
    ensures { out.new ≡ line_text (Packet number bytes.now) }
{
    begin(b"packet", out);
    push_number(u64::from(number), out);
    push_hex(bytes, out);
    end_line(out);
}

/// There is no packet of this number.
#[tactic(auto, unfolding(crate::specs::TraceLines::line_text))]
pub fn line_no_packet(number: u32, out: &mut Line)
    ensures { out.new ≡ line_text (NoPacket number) }
{
    begin(b"no", out);
    push_word(b"packet", out);
    push_number(u64::from(number), out);
    end_line(out);
}

// Appends a session to the words of a line.
fn push_view(view: &SessionView, out: &mut Line)
    requires { length out.old ≤ 44 }
    ensures text { out.new ≡ with_words out.old (view_words view.now) }
    ensures length { length out.new ≤ 400 }
{
    push_id(view.id, out);
    push_word(stage_word(view.stage), out);
    push_number(view.request_epoch, out);
    push_number(view.response_epoch, out);
    push_number(u64::from(view.request_next), out);
    push_number(u64::from(view.response_next), out);
    push_number(view.taken, out);
    push_hash(&view.hash, out);
}

/// A session of an end: of requester `q`, or of the responder with it.
#[tactic(auto, using(crate::proofs::Folding::with_words_append), unfolding(crate::specs::TraceLines::line_text))]
pub fn line_session(q: u8, responder: bool, view: &SessionView, out: &mut Line)
    ensures { out.new ≡ line_text (Session (whose_of q responder) view.now) }
{
    begin_whose(b"session", q, responder, out);
    push_view(view, out);
    end_line(out);
}
