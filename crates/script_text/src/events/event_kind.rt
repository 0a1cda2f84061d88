ghost use Rattle.std.specs.Prelude.{◌≡◌, ◌≤◌, IfOk, IfSome};
ghost use Rattle.script_text.specs.EventLines.{event_kind, other_kind, event_fault, event_of, reply_fault, number_fault, inject_fault, show_fault, named};
ghost use Rattle.script_text.specs.Choices.{requester_in};
ghost use Rattle.script_text.specs.HexWords.{bytes_of};
ghost use Rattle.script_text.specs.Lines.{word};
ghost use Rattle.script_text.specs.Numbers.{value_of};
ghost use Rattle.script_text.specs.Tests.{IsAnswerTo};

use crate::events::command::{CommandKind, command, command_kind};
use crate::events::event::LinkEvent;
use crate::reading::choices::requester;
use crate::reading::hex_words::hex_bytes;
use crate::reading::numbers::number;
use crate::reading::words::{has_words, word};
use crate::texts::faults::{LineError, LineFault};
use std::alloc::Global;

/// The kinds of events.
#[derive(Clone, Copy, Debug, PartialEq, Eq)]
pub enum EventKind {
    /// A command for this requester, counted from 1.
    Command(u8, CommandKind),
    Reply,
    Deliver,
    Lose,
    Inject,
    Pump,
    Tick,
    Show,
}

// The kind of a line that begins with no requester.
#[tactic(auto, unfolding(crate::specs::EventLines::other_kind))]
fn other_kind(word: &[u8]) -> Option<EventKind>
    ensures { result ≡ other_kind word.now }
{
    if word == b"reply".as_slice() {
        Some(EventKind::Reply)
    } else if word == b"deliver".as_slice() {
        Some(EventKind::Deliver)
    } else if word == b"lose".as_slice() {
        Some(EventKind::Lose)
    } else if word == b"inject".as_slice() {
        Some(EventKind::Inject)
    } else if word == b"pump".as_slice() {
        Some(EventKind::Pump)
    } else if word == b"tick".as_slice() {
        Some(EventKind::Tick)
    } else if word == b"show".as_slice() {
        Some(EventKind::Show)
    } else {
        None
    }
}

/// The kind of an event by its first two words.
pub fn event_kind(line: &[u8]) -> Option<EventKind>
    ensures { result ≡ event_kind line.now }
{
    let first = word(0, line);
    match requester(first) {
        Some(q) => match command_kind(word(1, line)) {
            Some(kind) => Some(EventKind::Command(q, kind)),
            None => None,
        },
        None => other_kind(first),
    }
}

// The event in the line `reply qN H`.
#[tactic(auto, unfolding(crate::specs::EventLines::reply_fault))]
fn reply(alloc: Global, requesters: usize, line: &[u8]) -> Result<LinkEvent, LineError>
    ensures answer { IsAnswerTo (reply_fault requesters line.now) result }
    ensures value { IfOk result (λ event. event
        ≡ LinkEvent.Reply (named (requester_in (word 1 line.now))) (bytes_of (word 2 line.now))) }
{
    if !has_words(3, line) {
        return Err(LineError::Fault(LineFault::Words));
    }
    let Some(bytes) = hex_bytes(alloc, word(2, line))? else {
        return Err(LineError::Fault(LineFault::Hex));
    };
    let Some(q) = requester(word(1, line)) else {
        return Err(LineError::Fault(LineFault::NoSuchEnd));
    };
    if requesters < usize::from(q) {
        return Err(LineError::Fault(LineFault::NoSuchEnd));
    }
    Ok(LinkEvent::Reply { q, bytes })
}

// The number of a line that has one, of at most `limit`.
#[tactic(auto, unfolding(crate::specs::EventLines::number_fault))]
fn only_number(limit: u32, line: &[u8]) -> Result<u32, LineError>
    ensures answer { IsAnswerTo (number_fault limit line.now) result }
    ensures value { IfOk result (λ n. n ≡ value_of (word 1 line.now)) }
{
    if !has_words(2, line) {
        return Err(LineError::Fault(LineFault::Words));
    }
    let Some(number) = number(0, limit, word(1, line)) else {
        return Err(LineError::Fault(LineFault::Number));
    };
    Ok(number)
}

// The event in the line `inject H`.
#[tactic(auto, unfolding(crate::specs::EventLines::inject_fault))]
fn inject(alloc: Global, line: &[u8]) -> Result<LinkEvent, LineError>
    ensures answer { IsAnswerTo (inject_fault line.now) result }
    ensures value { IfOk result (λ event. event ≡ LinkEvent.Inject (bytes_of (word 1 line.now))) }
{
    if !has_words(2, line) {
        return Err(LineError::Fault(LineFault::Words));
    }
    let Some(bytes) = hex_bytes(alloc, word(1, line))? else {
        return Err(LineError::Fault(LineFault::Hex));
    };
    Ok(LinkEvent::Inject { bytes })
}

// Whether the line `show` is good.
#[tactic(auto, unfolding(crate::specs::EventLines::show_fault))]
fn check_show(line: &[u8]) -> Result<(), LineError>
    ensures { IsAnswerTo (show_fault line.now) result }
{
    if !has_words(1, line) {
        return Err(LineError::Fault(LineFault::Words));
    }
    Ok(())
}

/// The event of a line of this kind, where `requesters` are configured.
pub fn event(
    alloc: Global,
    requesters: usize,
    kind: EventKind,
    line: &[u8],
) -> Result<LinkEvent, LineError>
    ensures answer { IsAnswerTo (event_fault requesters kind line.now) result }
    ensures value { IfOk result (λ event. event ≡ event_of kind line.now) }
{
    match kind {
        EventKind::Command(q, kind) => command(alloc, requesters, q, kind, line),
        EventKind::Reply => reply(alloc, requesters, line),
        EventKind::Deliver => {
            let number = only_number(u32::MAX, line)?;
            Ok(LinkEvent::Deliver { number })
        }
        EventKind::Lose => {
            let number = only_number(u32::MAX, line)?;
            Ok(LinkEvent::Lose { number })
        }
        EventKind::Inject => inject(alloc, line),
        EventKind::Pump => {
            let count = only_number(65_536, line)?;
            Ok(LinkEvent::Pump { count })
        }
        EventKind::Tick => {
            let seconds = only_number(1_000_000, line)?;
            Ok(LinkEvent::Tick { seconds })
        }
        EventKind::Show => {
            check_show(line)?;
            Ok(LinkEvent::Show)
        }
    }
}
