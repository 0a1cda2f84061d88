ghost use Rattle.std.specs.Prelude.{◌≡◌, ◌≤◌, ◌++◌, ◌∷◌, [], ℕ, List, None, length, IfErr, IfOk, IsErrOf, OnOk, false, true};
ghost use Rattle.link_world.specs.Worlds.{StandsFor};
ghost use Rattle.link_world.specs.Written.{has_full};
ghost use Rattle.script_laws.specs.Scripts.{entries_in, entry_in, full_from, full_line};
ghost use Rattle.script_picture.specs.Drawn.{HasNone, HaveNone, most_rows};
ghost use Rattle.script_picture.specs.Rows.{again_rows, event_rows, put_rows, rows_from, rows_in};
ghost use Rattle.script_text.specs.Sound.{IsSoundConfig};
ghost use Rattle.sequence_picture.specs.declared.rows.Fate.TheVariants.{Arrives};
ghost use Rattle.sequence_picture.specs.declared.rows.Row.TheVariants.{Packet};
ghost use Rattle.capture_picture.specs.Arrows.{arrow_of};
ghost use Rattle.world_machine.specs.World as machine;

use crate::DrawFault;
use crate::lines::add_lines;
use crate::text_sink::TextSink;
use capture_picture::arrow_of;
use link_world::{SentPackets, StepFault, World};
use script_run::new_world;
use script_text::{Entry, LinkEvent, Script, ScriptConfig};
use sequence_picture::{Fate, Row, Rows};
use spdm_basis::OutOfMemory;
use std::alloc::Global;

// The most rows of a picture.
const MOST_ROWS: usize = 1_000_000;

// Adds a packet that the link puts between the ends.
fn add_put(
    alloc: Global,
    config: &ScriptConfig,
    number: u32,
    packet: &[u8],
    rows: &mut Rows,
) -> Result<(), OutOfMemory>
    ensures { OnOk result (rows.new
        ≡ rows.old ++ Packet (arrow_of config.now number Arrives packet.now) ∷ []) }
{
    let arrow = arrow_of(alloc, config, number as usize, Fate::Arrives, packet)?;
    rows.push(Row::Packet(arrow))
}

// Adds what the link itself puts between the ends at an event.
fn add_puts(
    alloc: Global,
    config: &ScriptConfig,
    sent: &SentPackets,
    event: &LinkEvent,
    rows: &mut Rows,
) -> Result<(), OutOfMemory>
    ensures { OnOk result (rows.new ≡ rows.old ++ put_rows config.now sent.now event.now) }
{
    match event {
        LinkEvent::Deliver { number } => {
            if sent.is_waiting(*number) {
                return Ok(());
            }
            match sent.get(*number) {
                Some(packet) => add_put(alloc, config, *number, packet, rows),
                None => Ok(()),
            }
        }
        LinkEvent::Inject { bytes } => add_put(alloc, config, 0, bytes.as_slice(), rows),
        _ => Ok(()),
    }
}

// Runs an event, and adds its rows.
fn add_event(
    alloc: Global,
    config: &ScriptConfig,
    events: &[Entry],
    world: &mut World,
    entry: &Entry,
    rows: &mut Rows,
) -> Result<(), StepFault>
    ensures rows { (w : machine.World) → StandsFor world.old w
        → OnOk result (rows.new ≡ rows.old
        ++ event_rows config.now events.now w entry.now) }
    ensures stands { (w : machine.World) → StandsFor world.old w
        → OnOk result (StandsFor world.new (machine.entry_step w (entry_in entry.now)).after) }
    ensures fits { (w : machine.World) → StandsFor world.old w
        → OnOk result (has_full (machine.entry_step w (entry_in entry.now)).lines ≡ false) }
    ensures link_full { (w : machine.World) → StandsFor world.old w
        → IsErrOf result StepFault.LinkFull
        → has_full (machine.entry_step w (entry_in entry.now)).lines ≡ true }
{
    let before = world.sent().count();
    match add_puts(alloc, config, world.sent(), &entry.event, rows) {
        Ok(()) => {}
        Err(OutOfMemory) => return Err(StepFault::OutOfMemory),
    }
    let mut text = TextSink::new(alloc);
    match world.step(entry.line, &entry.event, &mut text) {
        Ok(()) => {}
        Err(StepFault::LinkFull) => return Err(StepFault::LinkFull),
        Err(_) => return Err(StepFault::OutOfMemory),
    }
    match add_lines(
        alloc,
        config,
        events,
        before,
        world.sent(),
        text.as_slice(),
        rows,
    ) {
        Ok(()) => Ok(()),
        Err(OutOfMemory) => Err(StepFault::OutOfMemory),
    }
}

// Runs the events of a script, and adds their rows.
fn add_events(
    alloc: Global,
    config: &ScriptConfig,
    events: &[Entry],
    world: &mut World,
) -> Result<Rows, DrawFault>
    ensures rows { (w : machine.World) → StandsFor world.old w → IfOk result (λ rows. rows
        ≡ rows_from config.now events.now w events.now) }
    ensures few { IfOk result (λ rows. length rows ≤ most_rows) }
    ensures room { (w : machine.World) → StandsFor world.old w
        → OnOk result (full_from w (entries_in events.now) ≡ None) }
    ensures cause { (w : machine.World) → StandsFor world.old w
        → IfErr result (λ fault. HaveNone config.now events.now w
        events.now fault) }
{
    let mut rows = Rows::new(alloc);
    for entry in events {
        match add_event(alloc, config, events, world, entry, &mut rows) {
            Ok(()) => {}
            Err(StepFault::LinkFull) => return Err(DrawFault::LinkFull(entry.line)),
            Err(_) => return Err(DrawFault::OutOfMemory),
        }
        if rows.len() > MOST_ROWS {
            return Err(DrawFault::TooManyRows(entry.line));
        }
    }
    Ok(rows)
}

/// Runs a script whose configuration is in range, and returns the rows of what happens, at most 1,000,000. The fault is
/// none of a line or of writing.
pub(crate) fn rows_of(alloc: Global, script: &Script) -> Result<Rows, DrawFault>
    requires { IsSoundConfig script.now.config }
    ensures rows { IfOk result (λ rows. rows ≡ rows_in script.now) }
    ensures few { IfOk result (λ rows. length rows ≤ most_rows) }
    ensures room { OnOk result (full_line script.now ≡ None) }
    ensures cause { IfErr result (λ fault. HasNone script.now fault) }
{
    let Ok(mut world) = new_world(alloc, script) else {
        return Err(DrawFault::OutOfMemory);
    };
    add_events(alloc, &script.config, script.events.as_slice(), &mut world)
}
