ghost use Rattle.std.specs.Prelude.{◌≡◌, ◌≤◌, ◌++◌, ◌∷◌, [], fold, length, OnOk, IfOk};
ghost use Rattle.std.specs.Fmt.{decimal};
ghost use Rattle.script_text.specs.Printing.{with_line, with_entry, event_words, place_word, update_word, script_text};
ghost use Rattle.trace_text.specs.Spelling.{requester_word, with_word};

use crate::events::event::{Entry, LinkEvent};
use crate::printing::config_printing::print_config;
use crate::texts::script::Script;
use spdm_basis::{Bytes, OutOfMemory};
use std::alloc::Global;
use trace_text::{
    add_hex, add_number, add_requester, add_word, begin_with_requester, end_text_line,
};

// The first two words of a command.
fn begin_command(q: u8, command: &[u8], text: &mut Bytes) -> Result<(), OutOfMemory>
    ensures { OnOk result (text.new ≡ with_word (text.old ++ requester_word q) command.now) }
{
    begin_with_requester(q, text)?;
    add_word(command, text)
}

// Puts the place where measurements are asked for after the words of a line.
fn add_place(session: Option<u8>, text: &mut Bytes) -> Result<(), OutOfMemory>
    ensures { OnOk result (text.new ≡ with_word text.old (place_word session)) }
{
    match session {
        None => add_word(b"-", text),
        Some(session) => add_number(u64::from(session), text),
    }
}

fn update_word(all: bool) -> &'static [u8]
    ensures { result.now ≡ update_word all }
{
    if all { b"all" } else { b"key" }
}

// A line of a word and a number.
fn add_numbered(word: &[u8], number: u32, text: &mut Bytes) -> Result<(), OutOfMemory>
    ensures { OnOk result (text.new
        ≡ with_word (text.old ++ word.now) (decimal number) ++ 10 ∷ []) }
{
    text.extend(word)?;
    add_number(u64::from(number), text)?;
    end_text_line(text)
}

// A line of a command in a session.
fn add_in_session(q: u8, command: &[u8], session: u8, text: &mut Bytes) -> Result<(), OutOfMemory>
    ensures { OnOk result (text.new
        ≡ with_word (with_word (text.old ++ requester_word q) command.now) (decimal session)) }
{
    begin_command(q, command, text)?;
    add_number(u64::from(session), text)
}

// The line of an event.
fn add_event(event: &LinkEvent, text: &mut Bytes) -> Result<(), OutOfMemory>
    ensures { OnOk result (text.new ≡ with_line text.old (event_words event.now)) }
{
    match event {
        LinkEvent::Connect { q } => begin_command(*q, b"connect", text)?,
        LinkEvent::Retry { q } => begin_command(*q, b"retry", text)?,
        LinkEvent::Open { q, summary } => add_in_session(*q, b"open", *summary, text)?,
        LinkEvent::Send { q, session, bytes } => {
            add_in_session(*q, b"send", *session, text)?;
            add_hex(bytes.as_slice(), text)?;
        }
        LinkEvent::Beat { q, session } => add_in_session(*q, b"beat", *session, text)?,
        LinkEvent::End { q, session } => add_in_session(*q, b"end", *session, text)?,
        LinkEvent::Update { q, session, all } => {
            add_in_session(*q, b"update", *session, text)?;
            add_word(update_word(*all), text)?;
        }
        LinkEvent::Measure { q, session, op } => {
            begin_command(*q, b"measure", text)?;
            add_place(*session, text)?;
            add_number(u64::from(*op), text)?;
        }
        LinkEvent::Reply { q, bytes } => {
            text.extend(b"reply")?;
            add_requester(*q, text)?;
            add_hex(bytes.as_slice(), text)?;
        }
        LinkEvent::Deliver { number } => return add_numbered(b"deliver", *number, text),
        LinkEvent::Lose { number } => return add_numbered(b"lose", *number, text),
        LinkEvent::Inject { bytes } => {
            text.extend(b"inject")?;
            add_hex(bytes.as_slice(), text)?;
        }
        LinkEvent::Pump { count } => return add_numbered(b"pump", *count, text),
        LinkEvent::Tick { seconds } => return add_numbered(b"tick", *seconds, text),
        LinkEvent::Show => text.extend(b"show")?,
    }
    end_text_line(text)
}

// The lines of events.
fn add_events(entries: &[Entry], text: &mut Bytes) -> Result<(), OutOfMemory>
    ensures { OnOk result (text.new ≡ fold with_entry text.old entries.now) }
{
    for entry in entries {
        add_event(&entry.event, text)?;
    }
    Ok(())
}

/// The text of a script: its configuration and then its events. The numbers of lines are not printed.
#[tactic(auto, unfolding(crate::specs::Printing::script_text))]
pub fn print_script(alloc: Global, script: &Script) -> Result<Bytes, OutOfMemory>
    requires { length script.now.config.requesters ≤ 8 }
    ensures { IfOk result (λ text. text ≡ script_text script.now) }
{
    let mut text = print_config(alloc, &script.config)?;
    add_events(script.events.as_slice(), &mut text)?;
    Ok(text)
}
