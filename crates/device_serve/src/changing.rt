//! The lines of what became of sessions.
ghost use Rattle.std.specs.Prelude.{◌≡◌, ◌≤◌, ◌+◌, ◌++◌, ◌∷◌, [], length, Some, OnOk, OnErr};
ghost use Rattle.device_serve.specs.Changing.{change_text};
ghost use Rattle.device_serve.specs.Devised.{frames_of, told_changes};
ghost use Rattle.spdm_basis.specs.Stream.{HasFault, Takes, TakesPrefix};
ghost use Rattle.trace_text.specs.Spelling.{id_word, requester_word, with_word};

use frame_stream::write_line_frame;
use responder::SessionChange;
use spdm_basis::{Line, OutFault, SessionId, Sink};
use trace_text::write_pairs;

// How many bytes such a line has at most.
const MOST: usize = 100;

// Puts bytes at the end of a line that has room for them.
fn push(bytes: &[u8], out: &mut Line)
    requires { length out.old + length bytes.now ≤ MOST }
    ensures text { out.new ≡ out.old ++ bytes.now }
    ensures length { length out.new ≡ length out.old + length bytes.now }
{
    out.extend(bytes).unwrap();
}

// Puts a word after those of a line.
fn push_word(word: &[u8], out: &mut Line)
    requires { length out.old + 1 + length word.now ≤ MOST }
    ensures text { out.new ≡ with_word out.old word.now }
    ensures length { length out.new ≡ length out.old + 1 + length word.now }
{
    push(b" ", out);
    push(word, out);
}

// Puts the id of a session after the words of a line.
fn push_id(id: SessionId, out: &mut Line)
    requires { length out.old + 9 ≤ MOST }
    ensures text { out.new ≡ with_word out.old (id_word id) }
    ensures length { length out.new ≡ length out.old + 9 }
{
    let mut digits = [0; 8];
    write_pairs(&id.bytes(), &mut digits);
    push_word(&digits, out);
}

// Puts requester `q` after the words of a line.
#[tactic(auto, using(std::proofs::lemmas::Fmt::decimal_digit))]
fn push_requester(q: u8, out: &mut Line)
    requires one { q ≤ 8 }
    requires room { length out.old + 3 ≤ MOST }
    ensures text { out.new ≡ with_word out.old (requester_word q) }
    ensures length { length out.new ≡ length out.old + 3 }
{
    push_word(&[b'q', b'0' + q], out);
}

// The line of what became of a session with requester `q`, without its line feed.
fn line_change(q: u8, change: SessionChange, out: &mut Line)
    requires { q ≤ 8 }
    ensures text { out.new ≡ change_text q change }
    ensures length { length out.new ≤ MOST }
{
    out.clear();
    push(b"session", out);
    push_requester(q, out);
    match change {
        SessionChange::Began(id) => {
            push_id(id, out);
            push_word(b"began", out);
        }
        SessionChange::Established(id) => {
            push_id(id, out);
            push_word(b"opened", out);
        }
        SessionChange::Gone(id) => {
            push_id(id, out);
            push_word(b"gone", out);
        }
        SessionChange::Replaced { gone, by } => {
            push_id(gone, out);
            push_word(b"replaced", out);
            push_id(by, out);
        }
    }
}

// Writes the line of a session with requester `q`, where it changed. The fault is that of `write_changes`.
fn write_change<K: Sink>(sink: &mut K, q: u8, change: Option<SessionChange>) -> Result<(), OutFault>
    requires { q ≤ 8 }
    ensures whole { OnOk result (Takes (K.contents sink.old)
        (frames_of (told_changes q (change ∷ []))) (K.contents sink.new)) }
    ensures prefix { OnErr result (TakesPrefix (K.contents sink.old)
        (frames_of (told_changes q (change ∷ []))) (K.contents sink.new)) }
    ensures fault { OnErr result (HasFault (K.faults sink.old) (K.faults sink.new)) }
    ensures later { K.faults sink.old ≤ K.faults sink.new }
{
    match change {
        Some(change) => {
            let mut line = Line::new();
            line_change(q, change, &mut line);
            write_line_frame(sink, line.as_slice())
        }
        None => Ok(()),
    }
}

/// Writes a line for each session with requester `q` that changed, in order. After `WriteFault` (only if the sink's
/// `faults` count rose) a prefix of them was written. Never allocates (read, not proved).
pub(crate) fn write_changes<K: Sink>(
    sink: &mut K,
    q: u8,
    changes: &[Option<SessionChange>],
) -> Result<(), OutFault>
    requires { q ≤ 8 }
    ensures whole { OnOk result (Takes (K.contents sink.old)
        (frames_of (told_changes q changes.now)) (K.contents sink.new)) }
    ensures prefix { OnErr result (TakesPrefix (K.contents sink.old)
        (frames_of (told_changes q changes.now)) (K.contents sink.new)) }
    ensures fault { OnErr result (HasFault (K.faults sink.old) (K.faults sink.new)) }
    ensures later { K.faults sink.old ≤ K.faults sink.new }
{
    match changes {
        [] => Ok(()),
        [first, others @ ..] => match write_change(sink, q, *first) {
            Ok(()) => write_changes(sink, q, others),
            Err(fault) => Err(fault),
        },
    }
}
