ghost use Rattle.std.specs.Prelude.{◌≡◌, ◌||◌, ◌==◌, IfOk, IfSome, OnOk, is_some, true};
ghost use Rattle.script_text.specs.Commands.{command_fault, command_of, plain_fault, open_fault, send_fault, session_fault, update_fault, measure_fault, is_summary, is_session, place_of, says_all, says_key};
ghost use Rattle.script_text.specs.HexWords.{bytes_of, is_hex_in, is_none_word, most_bytes};
ghost use Rattle.script_text.specs.Lines.{word};
ghost use Rattle.script_text.specs.Numbers.{value_of};
ghost use Rattle.script_text.specs.Saying.{HasBytes, event_of};
ghost use Rattle.script_text.specs.Tests.{IsTestedBy};

use crate::events::command::CommandKind;
use crate::reading::hex_words::{MOST_BYTES, hex_len, is_none_word};
use crate::reading::numbers::number;
use crate::reading::words::{has_words, word};
use crate::texts::faults::LineFault;

/// What the line of a command asks of its requester. The bytes of `Send` are the last word of the line.
#[derive(Clone, Copy, Debug, PartialEq, Eq)]
pub enum ParsedCommand {
    /// To negotiate.
    Connect,
    /// To send its outstanding request again.
    Retry,
    /// To open a session, with this kind of measurement summary.
    Open { summary: u8 },
    /// To send application data in a session.
    Send { session: u8 },
    /// To send a heartbeat.
    Beat { session: u8 },
    /// To end a session.
    End { session: u8 },
    /// To update its own keys of a session, or those of both directions.
    Update { session: u8, all: bool },
    /// To ask for measurements, in the clear or in a session.
    Measure { session: Option<u8>, op: u8 },
}

// Whether the line of a command without further words is good.
#[tactic(auto, unfolding(crate::specs::Commands::plain_fault))]
fn check_plain(requesters: usize, q: u8, line: &[u8]) -> Result<(), LineFault>
    ensures { IsTestedBy (plain_fault requesters q line.now) result }
{
    if !has_words(2, line) {
        return Err(LineFault::Words);
    }
    if requesters < usize::from(q) {
        return Err(LineFault::NoSuchEnd);
    }
    Ok(())
}

// The summary that a word asks for.
fn summary(word: &[u8]) -> Option<u8>
    ensures valid { is_some result ≡ is_summary word.now }
    ensures value { IfSome result (λ summary. summary ≡ value_of word.now) }
{
    let summary = number(0, 255, word)?;
    if summary != 0 && summary != 1 && summary != 255 {
        return None;
    }
    Some(summary as u8)
}

// The summary in the line `qN open K`.
#[tactic(auto, unfolding(crate::specs::Commands::open_fault))]
fn open(requesters: usize, q: u8, line: &[u8]) -> Result<u8, LineFault>
    ensures answer { IsTestedBy (open_fault requesters q line.now) result }
    ensures value { IfOk result (λ summary. summary ≡ value_of (word 2 line.now)) }
{
    if !has_words(3, line) {
        return Err(LineFault::Words);
    }
    let Some(summary) = summary(word(2, line)) else {
        return Err(LineFault::Number);
    };
    if requesters < usize::from(q) {
        return Err(LineFault::NoSuchEnd);
    }
    Ok(summary)
}

// The session that a word names.
fn session(word: &[u8]) -> Option<u8>
    ensures valid { is_some result ≡ is_session word.now }
    ensures value { IfSome result (λ session. session ≡ value_of word.now) }
{
    let session = number(1, 4, word)?;
    Some(session as u8)
}

// The session in the line `qN send S H`.
#[tactic(auto, unfolding(crate::specs::Commands::send_fault))]
fn send(requesters: usize, q: u8, line: &[u8]) -> Result<u8, LineFault>
    ensures answer { IsTestedBy (send_fault requesters q line.now) result }
    ensures bytes { OnOk result (is_hex_in 0 most_bytes (word 3 line.now) ≡ true) }
    ensures value { IfOk result (λ session. session ≡ value_of (word 2 line.now)) }
{
    if !has_words(4, line) {
        return Err(LineFault::Words);
    }
    let Some(session) = session(word(2, line)) else {
        return Err(LineFault::Number);
    };
    if hex_len(0, MOST_BYTES, word(3, line)).is_none() {
        return Err(LineFault::Hex);
    }
    if requesters < usize::from(q) {
        return Err(LineFault::NoSuchEnd);
    }
    Ok(session)
}

// The session in the lines `qN beat S` and `qN end S`.
#[tactic(auto, unfolding(crate::specs::Commands::session_fault))]
fn only_session(requesters: usize, q: u8, line: &[u8]) -> Result<u8, LineFault>
    ensures answer { IsTestedBy (session_fault requesters q line.now) result }
    ensures value { IfOk result (λ session. session ≡ value_of (word 2 line.now)) }
{
    if !has_words(3, line) {
        return Err(LineFault::Words);
    }
    let Some(session) = session(word(2, line)) else {
        return Err(LineFault::Number);
    };
    if requesters < usize::from(q) {
        return Err(LineFault::NoSuchEnd);
    }
    Ok(session)
}

fn says_key(word: &[u8]) -> bool
    ensures { result ≡ says_key word.now }
{
    word == b"key".as_slice()
}

fn says_all(word: &[u8]) -> bool
    ensures { result ≡ says_all word.now }
{
    word == b"all".as_slice()
}

// The command in the line `qN update S key` or `qN update S all`.
#[tactic(auto, unfolding(crate::specs::Commands::update_fault))]
fn update(requesters: usize, q: u8, line: &[u8]) -> Result<ParsedCommand, LineFault>
    ensures answer { IsTestedBy (update_fault requesters q line.now) result }
    ensures value { IfOk result (λ said. said
        ≡ ParsedCommand.Update (value_of (word 2 line.now)) (says_all (word 3 line.now))) }
{
    if !has_words(4, line) {
        return Err(LineFault::Words);
    }
    let all = says_all(word(3, line));
    if !says_key(word(3, line)) && !all {
        return Err(LineFault::Words);
    }
    let Some(session) = session(word(2, line)) else {
        return Err(LineFault::Number);
    };
    if requesters < usize::from(q) {
        return Err(LineFault::NoSuchEnd);
    }
    Ok(ParsedCommand::Update { session, all })
}

// Where measurements are asked for: in a session, or in the clear; None where a word says neither.
fn place(word: &[u8]) -> Option<Option<u8>>
    ensures valid { is_some result ≡ (is_none_word word.now || is_session word.now) }
    ensures value { IfSome result (λ place. place ≡ place_of word.now) }
{
    if is_none_word(word) {
        return Some(None);
    }
    let session = session(word)?;
    Some(Some(session))
}

// The command in the line `qN measure - OP` or `qN measure S OP`.
#[tactic(auto, unfolding(crate::specs::Commands::measure_fault))]
fn measure(requesters: usize, q: u8, line: &[u8]) -> Result<ParsedCommand, LineFault>
    ensures answer { IsTestedBy (measure_fault requesters q line.now) result }
    ensures value { IfOk result (λ said. said
        ≡ ParsedCommand.Measure (place_of (word 2 line.now)) (value_of (word 3 line.now))) }
{
    if !has_words(4, line) {
        return Err(LineFault::Words);
    }
    let Some(session) = place(word(2, line)) else {
        return Err(LineFault::Number);
    };
    let Some(op) = number(0, 255, word(3, line)) else {
        return Err(LineFault::Number);
    };
    if requesters < usize::from(q) {
        return Err(LineFault::NoSuchEnd);
    }
    let op = op as u8;
    Ok(ParsedCommand::Measure { session, op })
}

/// What a line of this kind asks of requester `q`, where `requesters` are configured.
pub fn what_is_said(
    requesters: usize,
    q: u8,
    kind: CommandKind,
    line: &[u8],
) -> Result<ParsedCommand, LineFault>
    ensures answer { IsTestedBy (command_fault requesters q kind line.now) result }
    ensures value { IfOk result (λ said.
        event_of q said (bytes_of (word 3 line.now)) ≡ command_of q kind line.now) }
    ensures sent { IfOk result (λ said. HasBytes said (word 3 line.now)) }
{
    match kind {
        CommandKind::Connect => {
            check_plain(requesters, q, line)?;
            Ok(ParsedCommand::Connect)
        }
        CommandKind::Retry => {
            check_plain(requesters, q, line)?;
            Ok(ParsedCommand::Retry)
        }
        CommandKind::Open => {
            let summary = open(requesters, q, line)?;
            Ok(ParsedCommand::Open { summary })
        }
        CommandKind::Send => {
            let session = send(requesters, q, line)?;
            Ok(ParsedCommand::Send { session })
        }
        CommandKind::Beat => {
            let session = only_session(requesters, q, line)?;
            Ok(ParsedCommand::Beat { session })
        }
        CommandKind::End => {
            let session = only_session(requesters, q, line)?;
            Ok(ParsedCommand::End { session })
        }
        CommandKind::Update => update(requesters, q, line),
        CommandKind::Measure => measure(requesters, q, line),
    }
}
