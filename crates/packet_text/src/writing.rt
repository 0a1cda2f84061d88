ghost use Rattle.std.specs.Prelude.{◌≡◌, ◌≤◌, ◌+◌, ◌∷◌, [], ℕ, List, Err, length, is_ok, true, IsErrOf, OnErr, OnOk};
ghost use Rattle.packet_text.specs.Following.{Follows};
ghost use Rattle.packet_text.specs.Styles.{written_from, written_of};
ghost use Rattle.packet_text.specs.Told.{IsBad, packets_text, told_of};
ghost use Rattle.script_text.specs.ScriptText.{capture_in};
ghost use Rattle.script_text.specs.declared.texts.faults.LineFault.{LineFault};
ghost use Rattle.spdm_basis.specs.Stream.{HasFault, Takes, TakesPrefix};

use crate::Style;
use crate::following::Following;
use script_text::{LineFault, ScriptConfig, ScriptFault, TEXT_LIMIT, parse_capture};
use spdm_basis::{Bytes, Sink, write_all};
use std::alloc::Global;
use thiserror::Error;

/// Why not all packets of a capture were written.
#[derive(Clone, Copy, Debug, PartialEq, Eq, Error)]
pub enum PacketsFault {
    /// The first bad line, counted from 1, and its first fault. Nothing was written.
    #[error("line {0}: {1}")]
    Line(u32, LineFault),
    /// Writing failed, after a part of the output.
    #[error("writing failed")]
    WriteFault,
    /// Out of memory, possibly after a part of the output.
    #[error("out of memory")]
    OutOfMemory,
}

impl From<ScriptFault> for PacketsFault {
    ghost from_gives = { λ given error. error ≡ told_of given };

    fn from(fault: ScriptFault) -> PacketsFault {
        match fault {
            ScriptFault::Line(line, fault) => PacketsFault::Line(line, fault),
            ScriptFault::TooManyEvents(line) => PacketsFault::Line(line, LineFault::TooManyEvents),
            ScriptFault::OutOfMemory => PacketsFault::OutOfMemory,
        }
    }
}

// Writes the next packet.
fn write_packet<K: Sink>(
    alloc: Global,
    style: Style,
    config: &ScriptConfig,
    number: usize,
    packet: &[u8],
    following: &mut Following,
    sink: &mut K,
) -> Result<(), PacketsFault>
    ensures whole { (older : List (List ℕ)) → number ≡ length older + 1
        → Follows following.old config.now older
        → OnOk result (Takes (K.contents sink.old)
        (written_of style config.now older packet.now) (K.contents sink.new)) }
    ensures prefix { (older : List (List ℕ)) → number ≡ length older + 1
        → Follows following.old config.now older
        → OnErr result (TakesPrefix (K.contents sink.old)
        (written_of style config.now older packet.now) (K.contents sink.new)) }
    ensures follows { (older : List (List ℕ)) → Follows following.old config.now older
        → OnOk result (Follows following.new config.now (packet.now ∷ older)) }
    ensures fault { IsErrOf result PacketsFault.WriteFault
        → HasFault (K.faults sink.old) (K.faults sink.new) }
    ensures no_line { (line : ℕ) (f : LineFault) → result ≡ Err (PacketsFault.Line line f) → ⊥ }
    ensures later { K.faults sink.old ≤ K.faults sink.new }
{
    let Ok(()) = following.follow(alloc, style, config, number, packet) else {
        return Err(PacketsFault::OutOfMemory);
    };
    match write_all(sink, following.text.as_slice()) {
        Ok(()) => Ok(()),
        Err(_) => Err(PacketsFault::WriteFault),
    }
}

// Writes each packet.
fn write_each<K: Sink>(
    alloc: Global,
    style: Style,
    config: &ScriptConfig,
    packets: &[Bytes],
    sink: &mut K,
) -> Result<(), PacketsFault>
    ensures whole { OnOk result (Takes (K.contents sink.old)
        (written_from style config.now [] packets.now) (K.contents sink.new)) }
    ensures prefix { OnErr result (TakesPrefix (K.contents sink.old)
        (written_from style config.now [] packets.now) (K.contents sink.new)) }
    ensures fault { IsErrOf result PacketsFault.WriteFault
        → HasFault (K.faults sink.old) (K.faults sink.new) }
    ensures no_line { (line : ℕ) (f : LineFault) → result ≡ Err (PacketsFault.Line line f) → ⊥ }
    ensures later { K.faults sink.old ≤ K.faults sink.new }
{
    let Ok(mut following) = Following::new(alloc, config) else {
        return Err(PacketsFault::OutOfMemory);
    };
    for (index, packet) in packets.iter().enumerate() {
        match write_packet(
            alloc,
            style,
            config,
            index + 1,
            packet.as_slice(),
            &mut following,
            sink,
        ) {
            Ok(()) => {}
            Err(fault) => return Err(fault),
        }
    }
    Ok(())
}

/// Writes each packet of the capture that a text of at most 4 MiB is, in a style.
#[tactic(auto, unfolding(crate::specs::Told::packets_text))]
pub fn write_packets<K: Sink>(
    alloc: Global,
    style: Style,
    text: &[u8],
    sink: &mut K,
) -> Result<(), PacketsFault>
    requires { length text.now ≤ TEXT_LIMIT }
    ensures whole { OnOk result (Takes (K.contents sink.old) (packets_text style text.now)
        (K.contents sink.new)) }
    ensures prefix { OnErr result (TakesPrefix (K.contents sink.old) (packets_text style text.now)
        (K.contents sink.new)) }
    ensures read { OnOk result (is_ok (capture_in text.now) ≡ true) }
    ensures bad_line { (line : ℕ) (f : LineFault) → result ≡ Err (PacketsFault.Line line f)
        → IsBad (capture_in text.now) (PacketsFault.Line line f) }
    ensures write_fault { IsErrOf result PacketsFault.WriteFault
        → HasFault (K.faults sink.old) (K.faults sink.new) }
    ensures readable { IsErrOf result PacketsFault.WriteFault → is_ok (capture_in text.now) ≡ true }
    ensures nothing_written { (line : ℕ) (f : LineFault) → result ≡ Err (PacketsFault.Line line f)
        → sink.new ≡ sink.old }
    ensures later { K.faults sink.old ≤ K.faults sink.new }
{
    let capture = parse_capture(alloc, text)?;
    write_each(
        alloc,
        style,
        &capture.config,
        capture.packets.as_slice(),
        sink,
    )
}
