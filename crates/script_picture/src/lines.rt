ghost use Rattle.std.specs.Prelude.{◌≡◌, ◌<◌, ◌+◌, ◌^◌, ◌++◌, ◌∷◌, [], ℕ, List, IfOk, OnOk, true, unwrap_or};
ghost use Rattle.std.specs.List.{list_any};
ghost use Rattle.script_picture.specs.Rows.{fate_of, is_sent, loses, rows_of_lines, sent_row};
ghost use Rattle.script_text.specs.Lines.{lines_of};
ghost use Rattle.world_machine.specs.World.{packet_of};

use crate::notes::{add_note, begins};
use crate::text_lines::next_line;
use capture_picture::arrow_of;
use link_world::SentPackets;
use script_text::{Entry, LinkEvent, ScriptConfig};
use sequence_picture::{Fate, Row, Rows};
use spdm_basis::OutOfMemory;
use std::alloc::Global;

// Whether an event loses the packet with this number.
fn loses(number: u32, entry: &Entry) -> bool
    ensures { result ≡ loses number entry.now }
{
    match &entry.event {
        LinkEvent::Lose { number: other } => *other == number,
        _ => false,
    }
}

// Whether one of these events loses the packet with this number.
fn is_lost(number: u32, events: &[Entry]) -> bool
    ensures { result ≡ list_any (loses number) events.now }
{
    events.iter().any(|entry| loses(number, entry))
}

// What becomes of the packet with this number.
fn fate_of(number: u32, events: &[Entry]) -> Fate
    ensures { result ≡ fate_of number events.now }
{
    if is_lost(number, events) {
        Fate::Lost
    } else {
        Fate::Arrives
    }
}

// The bytes of the packet with this number, and none where it was not sent.
fn packet_at(number: u32, sent: &SentPackets) -> &[u8]
    ensures { result.now ≡ unwrap_or (packet_of number sent.now) [] }
{
    match sent.get(number) {
        Some(packet) => packet,
        None => &[],
    }
}

// Adds the packet with this number.
fn add_sent(
    alloc: Global,
    config: &ScriptConfig,
    events: &[Entry],
    number: u32,
    sent: &SentPackets,
    rows: &mut Rows,
) -> Result<(), OutOfMemory>
    ensures { OnOk result (rows.new
        ≡ rows.old ++ sent_row config.now events.now number sent.now ∷ []) }
{
    let fate = fate_of(number, events);
    let arrow = arrow_of(
        alloc,
        config,
        number as usize,
        fate,
        packet_at(number, sent),
    )?;
    rows.push(Row::Packet(arrow))
}

// Whether a line is that of a packet that was sent, where so many were sent before.
fn is_sent(count: u32, sent: &SentPackets, line: &[u8]) -> bool
    ensures is { result ≡ is_sent count sent.now line.now }
    ensures room { result ≡ true → count + 1 < 2 ^ 32 }
{
    begins(b"packet ", line) && count < sent.count()
}

// Adds the row of a line, where so many packets were sent before it, and returns how many were sent with it.
fn add_line(
    alloc: Global,
    config: &ScriptConfig,
    events: &[Entry],
    count: u32,
    sent: &SentPackets,
    line: &[u8],
    rows: &mut Rows,
) -> Result<u32, OutOfMemory>
    ensures { (others : List (List ℕ)) → IfOk result (λ after. rows.new
        ++ rows_of_lines config.now events.now after sent.now others
        ≡ rows.old ++ rows_of_lines config.now events.now count sent.now (line.now ∷ others)) }
{
    if is_sent(count, sent, line) {
        add_sent(alloc, config, events, count + 1, sent, rows)?;
        return Ok(count + 1);
    }
    add_note(alloc, config, line, rows)?;
    Ok(count)
}

/// Adds the rows of lines of a trace, where so many packets were sent before them.
pub(crate) fn add_lines(
    alloc: Global,
    config: &ScriptConfig,
    events: &[Entry],
    before: u32,
    sent: &SentPackets,
    text: &[u8],
    rows: &mut Rows,
) -> Result<(), OutOfMemory>
    ensures { OnOk result (rows.new ≡ rows.old
        ++ rows_of_lines config.now events.now before sent.now (lines_of text.now)) }
{
    let mut count = before;
    let mut rest = text;
    while let Some((line, behind)) = next_line(rest) {
        count = add_line(alloc, config, events, count, sent, line, rows)?;
        rest = behind;
    }
    Ok(())
}
