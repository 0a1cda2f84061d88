ghost use Rattle.std.specs.Prelude.{◌≡◌, ◌≤◌, Err, ℕ, length, is_ok, true, IsErrOf, OnErr, OnOk};
ghost use Rattle.capture_difference.specs.Texts.{difference_text};
ghost use Rattle.capture_difference.specs.Written.{IsBegun, IsWritten, judged_text};
ghost use Rattle.packet_text.specs.Told.{IsBad};
ghost use Rattle.script_text.specs.ScriptText.{capture_in};
ghost use Rattle.script_text.specs.declared.texts.faults.LineFault.{LineFault};
ghost use Rattle.spdm_basis.specs.Stream.{HasFault, Takes, TakesPrefix};

use crate::Difference;
use crate::reading::read_judged;
use crate::texts::set_difference;
use packet_text::{PacketsFault, Style, write_packets};
use script_text::TEXT_LIMIT;
use spdm_basis::{Bytes, Sink, write_all};
use std::alloc::Global;

// Writes what is told of a capture, in a style.
fn write_difference<K: Sink>(
    alloc: Global,
    style: Style,
    told: Option<Difference>,
    sink: &mut K,
) -> Result<(), PacketsFault>
    ensures whole { OnOk result (Takes (K.contents sink.old) (difference_text style told)
        (K.contents sink.new)) }
    ensures prefix { OnErr result (TakesPrefix (K.contents sink.old) (difference_text style told)
        (K.contents sink.new)) }
    ensures fault { IsErrOf result PacketsFault.WriteFault
        → HasFault (K.faults sink.old) (K.faults sink.new) }
    ensures no_line { (line : ℕ) (f : LineFault) → result ≡ Err (PacketsFault.Line line f) → ⊥ }
    ensures later { K.faults sink.old ≤ K.faults sink.new }
{
    let mut text = Bytes::new(alloc);
    let Ok(()) = set_difference(style, told, &mut text) else {
        return Err(PacketsFault::OutOfMemory);
    };
    match write_all(sink, text.as_slice()) {
        Ok(()) => Ok(()),
        Err(_) => Err(PacketsFault::WriteFault),
    }
}

// Writes the packets of a capture, and behind them what is told of it.
fn write_both<K: Sink>(
    alloc: Global,
    style: Style,
    text: &[u8],
    told: Option<Difference>,
    sink: &mut K,
) -> Result<(), PacketsFault>
    requires { length text.now ≤ TEXT_LIMIT }
    ensures whole { OnOk result (Takes (K.contents sink.old) (judged_text style text.now told)
        (K.contents sink.new)) }
    ensures prefix { OnErr result (TakesPrefix (K.contents sink.old)
        (judged_text style text.now told) (K.contents sink.new)) }
    ensures bad_line { (line : ℕ) (f : LineFault) → result ≡ Err (PacketsFault.Line line f)
        → IsBad (capture_in text.now) (PacketsFault.Line line f) }
    ensures nothing_written { (line : ℕ) (f : LineFault) → result ≡ Err (PacketsFault.Line line f)
        → sink.new ≡ sink.old }
    ensures fault { IsErrOf result PacketsFault.WriteFault
        → HasFault (K.faults sink.old) (K.faults sink.new) }
    ensures later { K.faults sink.old ≤ K.faults sink.new }
{
    match write_packets(alloc, style, text, sink) {
        Ok(()) => {}
        Err(fault) => return Err(fault),
    }
    match write_difference(alloc, style, told, sink) {
        Ok(()) => Ok(()),
        Err(fault) => Err(fault),
    }
}

/// Writes each packet of the capture that a text of at most 4 MiB is, in a style, and behind them the first that does not
/// conform, if there is one.
pub fn write_judged<K: Sink>(
    alloc: Global,
    style: Style,
    text: &[u8],
    sink: &mut K,
) -> Result<(), PacketsFault>
    requires { length text.now ≤ TEXT_LIMIT }
    ensures whole { OnOk result (IsWritten style text.now (K.contents sink.old)
        (K.contents sink.new)) }
    ensures part { OnErr result (IsBegun style text.now (K.contents sink.old)
        (K.contents sink.new)) }
    ensures read { OnOk result (is_ok (capture_in text.now) ≡ true) }
    ensures bad_line { (line : ℕ) (f : LineFault) → result ≡ Err (PacketsFault.Line line f)
        → IsBad (capture_in text.now) (PacketsFault.Line line f) }
    ensures write_fault { IsErrOf result PacketsFault.WriteFault
        → HasFault (K.faults sink.old) (K.faults sink.new) }
    ensures readable { IsErrOf result PacketsFault.WriteFault → is_ok (capture_in text.now) ≡ true }
    ensures nothing_written { (line : ℕ) (f : LineFault) → result ≡ Err (PacketsFault.Line line f)
        → sink.new ≡ sink.old }
    ensures later { K.faults sink.old ≤ K.faults sink.new }
{
    let told = read_judged(alloc, text)?;
    match write_both(alloc, style, text, told, sink) {
        Ok(()) => Ok(()),
        Err(fault) => Err(fault),
    }
}
