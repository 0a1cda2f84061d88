ghost use Rattle.std.specs.Prelude.{◌≡◌, ◌++◌, ◌∷◌, [], IfOk, OnOk, drop, take};
ghost use Rattle.script_picture.specs.Lines.{begins, end_in, fate_in, is_nothing, is_of_responder, is_untold, note_of, note_rows, outcome_in, requester_at};

use capture_picture::requesters_of;
use script_text::ScriptConfig;
use sequence_picture::{Fate, Note, Row, Rows};
use spdm_basis::{Bytes, OutOfMemory};
use std::alloc::Global;

/// Whether a line begins so.
pub(crate) fn begins(words: &[u8], line: &[u8]) -> bool
    ensures { result ≡ begins words.now line.now }
{
    first(words.len(), line) == words
}

// The first bytes of a line, or all where there are fewer.
fn first(count: usize, line: &[u8]) -> &[u8]
    ensures { result.now ≡ take count line.now }
{
    if count < line.len() {
        &line[..count]
    } else {
        line
    }
}

// What follows the first bytes of a line.
fn behind(count: usize, line: &[u8]) -> &[u8]
    ensures { result.now ≡ drop count line.now }
{
    if count < line.len() {
        &line[count..]
    } else {
        &[]
    }
}

// The requester whose digit stands at a place.
fn requester_at(place: usize, line: &[u8]) -> u8
    ensures { result ≡ requester_at place line.now }
{
    line.get(place).copied().unwrap_or(0).saturating_sub(49)
}

fn is_of_responder(line: &[u8]) -> bool
    ensures { result ≡ is_of_responder line.now }
{
    begins(b"to r ", line)
        || begins(b"r ", line)
        || begins(b"state r ", line)
        || begins(b"session r ", line)
        || begins(b"data r ", line)
}

// The end that a line tells of.
#[tactic(auto, unfolding(crate::specs::Lines::end_in))]
fn end_in(config: &ScriptConfig, line: &[u8]) -> u8
    ensures { result ≡ end_in config.now line.now }
{
    if is_of_responder(line) {
        requesters_of(config)
    } else if begins(b"to q", line) {
        requester_at(4, line)
    } else if begins(b"q", line) {
        requester_at(1, line)
    } else if begins(b"state q", line) {
        requester_at(7, line)
    } else if begins(b"session q", line) {
        requester_at(9, line)
    } else if begins(b"data q", line) {
        requester_at(6, line)
    } else if begins(b"record q", line) {
        requester_at(8, line)
    } else {
        requesters_of(config) + 1
    }
}

// What a line tells of a packet, behind its end.
fn outcome_in(line: &[u8]) -> &[u8]
    ensures { result.now ≡ outcome_in line.now }
{
    if begins(b"to r ", line) {
        behind(5, line)
    } else if begins(b"to q", line) {
        behind(6, line)
    } else {
        &[]
    }
}

fn is_nothing(outcome: &[u8]) -> bool
    ensures { result ≡ is_nothing outcome.now }
{
    begins(b"ignored", outcome)
        || begins(b"unopened", outcome)
        || begins(b"refused", outcome)
        || begins(b"lost", outcome)
}

#[tactic(auto, unfolding(crate::specs::Lines::fate_in))]
fn fate_in(line: &[u8]) -> Fate
    ensures { result ≡ fate_in line.now }
{
    if is_nothing(outcome_in(line)) || begins(b"no", line) {
        Fate::Ignored
    } else {
        Fate::Arrives
    }
}

// The note of a line.
fn note_of(alloc: Global, config: &ScriptConfig, line: &[u8]) -> Result<Note, OutOfMemory>
    ensures { IfOk result (λ note. note ≡ note_of config.now line.now) }
{
    let text = Bytes::copy(alloc, first(40, line))?;
    Ok(Note {
        end: end_in(config, line),
        fate: fate_in(line),
        text,
    })
}

fn is_untold(line: &[u8]) -> bool
    ensures { result ≡ is_untold line.now }
{
    line.is_empty() || line[0] == b'@'
}

/// Adds the note of a line.
#[tactic(auto, unfolding(crate::specs::Lines::note_rows))]
pub(crate) fn add_note(
    alloc: Global,
    config: &ScriptConfig,
    line: &[u8],
    rows: &mut Rows,
) -> Result<(), OutOfMemory>
    ensures { OnOk result (rows.new ≡ rows.old ++ note_rows config.now line.now) }
{
    if is_untold(line) {
        return Ok(());
    }
    rows.push(Row::Aside(note_of(alloc, config, line)?))
}
