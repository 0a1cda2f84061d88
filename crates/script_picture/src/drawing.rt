ghost use Rattle.std.specs.Prelude.{◌≡◌, ◌≤◌, Err, length, true, IfErr, IfOk, IsErrOf, OnErr, OnOk};
ghost use Rattle.capture_picture.specs.Arrows.{packets_picture};
ghost use Rattle.script_text.specs.ScriptText.{capture_in, script_in};
ghost use Rattle.script_text.specs.Sound.{IsSoundConfig};
ghost use Rattle.spdm_basis.specs.Stream.{HasFault, Takes, TakesPrefix};
ghost use Rattle.script_picture.specs.Drawn.{HasPicture, IsCause, IsGood, IsScriptCause, IsWriteCause, drawn_text, further, line_of, script_picture, told_of, writes_nothing};

use crate::DrawFault;
use crate::events::rows_of;
use capture_picture::{draw_packets, requesters_of};
use script_text::{
    Capture, Packets, Script, ScriptConfig, ScriptFault, TEXT_LIMIT, parse_capture, parse_script,
};
use sequence_picture::{Form, PictureError, write_picture};
use spdm_basis::{OutOfMemory, Sink};
use std::alloc::Global;

// The line of a fault.
fn line_of(fault: ScriptFault) -> u32
    ensures { result ≡ line_of fault }
{
    match fault {
        ScriptFault::Line(line, _) => line,
        ScriptFault::TooManyEvents(line) => line,
        ScriptFault::OutOfMemory => 0,
    }
}

// The fault of a text that is neither a capture nor a script.
fn further(capture: ScriptFault, script: ScriptFault) -> DrawFault
    ensures { result ≡ told_of (further capture script) }
{
    if line_of(script) < line_of(capture) {
        DrawFault::from(capture)
    } else {
        DrawFault::from(script)
    }
}

// Draws packets.
fn draw<K: Sink>(
    alloc: Global,
    form: Form,
    config: &ScriptConfig,
    packets: &Packets,
    sink: &mut K,
) -> Result<(), DrawFault>
    requires { length packets.now ≤ 100000 }
    ensures whole { OnOk result (Takes (K.contents sink.old)
        (packets_picture form config.now packets.now) (K.contents sink.new)) }
    ensures prefix { OnErr result (TakesPrefix (K.contents sink.old)
        (packets_picture form config.now packets.now) (K.contents sink.new)) }
    ensures cause { IfErr result (λ fault. IsWriteCause fault) }
    ensures write_fault { IsErrOf result DrawFault.WriteFault
        → HasFault (K.faults sink.old) (K.faults sink.new) }
    ensures later { K.faults sink.old ≤ K.faults sink.new }
{
    match draw_packets(alloc, form, config, packets.as_slice(), sink) {
        Ok(()) => Ok(()),
        Err(PictureError::WriteFault) => Err(DrawFault::WriteFault),
        Err(PictureError::OutOfMemory) => Err(DrawFault::OutOfMemory),
    }
}

// Draws a script.
fn draw_script<K: Sink>(
    alloc: Global,
    form: Form,
    script: &Script,
    sink: &mut K,
) -> Result<(), DrawFault>
    requires { IsSoundConfig script.now.config }
    ensures whole { OnOk result (Takes (K.contents sink.old)
        (script_picture form script.now) (K.contents sink.new)) }
    ensures prefix { OnErr result (TakesPrefix (K.contents sink.old)
        (script_picture form script.now) (K.contents sink.new)) }
    ensures good { OnOk result (HasPicture script.now) }
    ensures cause { IfErr result (λ fault. IsScriptCause script.now fault) }
    ensures nothing_written { IfErr result
        (λ fault. writes_nothing fault ≡ true → sink.new ≡ sink.old) }
    ensures write_fault { IsErrOf result DrawFault.WriteFault
        → HasFault (K.faults sink.old) (K.faults sink.new) }
    ensures later { K.faults sink.old ≤ K.faults sink.new }
{
    let rows = match rows_of(alloc, script) {
        Ok(rows) => rows,
        Err(fault) => return Err(fault),
    };
    match write_picture(alloc, form, requesters_of(&script.config), &rows, sink) {
        Ok(()) => Ok(()),
        Err(PictureError::WriteFault) => Err(DrawFault::WriteFault),
        Err(PictureError::OutOfMemory) => Err(DrawFault::OutOfMemory),
    }
}

// What a text is as a capture.
fn read_capture(alloc: Global, text: &[u8]) -> Result<Result<Capture, ScriptFault>, OutOfMemory>
    requires { length text.now ≤ TEXT_LIMIT }
    ensures { IfOk result (λ said. said ≡ capture_in text.now) }
{
    match parse_capture(alloc, text) {
        Ok(capture) => Ok(Ok(capture)),
        Err(ScriptFault::Line(line, fault)) => Ok(Err(ScriptFault::Line(line, fault))),
        Err(ScriptFault::TooManyEvents(line)) => Ok(Err(ScriptFault::TooManyEvents(line))),
        Err(ScriptFault::OutOfMemory) => Err(OutOfMemory),
    }
}

// What a text is as a script.
fn read_script(alloc: Global, text: &[u8]) -> Result<Result<Script, ScriptFault>, OutOfMemory>
    requires { length text.now ≤ TEXT_LIMIT }
    ensures { IfOk result (λ said. said ≡ script_in text.now) }
{
    match parse_script(alloc, text) {
        Ok(script) => Ok(Ok(script)),
        Err(ScriptFault::Line(line, fault)) => Ok(Err(ScriptFault::Line(line, fault))),
        Err(ScriptFault::TooManyEvents(line)) => Ok(Err(ScriptFault::TooManyEvents(line))),
        Err(ScriptFault::OutOfMemory) => Err(OutOfMemory),
    }
}

// Writes the picture of a text that is no capture for this reason.
#[tactic(auto, unfolding(crate::specs::Drawn::drawn_text))]
fn draw_other<K: Sink>(
    alloc: Global,
    form: Form,
    text: &[u8],
    fault: ScriptFault,
    sink: &mut K,
) -> Result<(), DrawFault>
    requires small { length text.now ≤ TEXT_LIMIT }
    requires none { capture_in text.now ≡ Err fault }
    ensures whole { OnOk result (Takes (K.contents sink.old) (drawn_text form text.now)
        (K.contents sink.new)) }
    ensures prefix { OnErr result (TakesPrefix (K.contents sink.old) (drawn_text form text.now)
        (K.contents sink.new)) }
    ensures good { OnOk result (IsGood (capture_in text.now) (script_in text.now)) }
    ensures cause { IfErr result (λ fault. IsCause (capture_in text.now) (script_in text.now) fault) }
    ensures nothing_written { IfErr result
        (λ fault. writes_nothing fault ≡ true → sink.new ≡ sink.old) }
    ensures write_fault { IsErrOf result DrawFault.WriteFault
        → HasFault (K.faults sink.old) (K.faults sink.new) }
    ensures later { K.faults sink.old ≤ K.faults sink.new }
{
    match read_script(alloc, text) {
        Ok(Ok(script)) => draw_script(alloc, form, &script, sink),
        Ok(Err(other)) => Err(further(fault, other)),
        Err(OutOfMemory) => Err(DrawFault::OutOfMemory),
    }
}

/// Writes the picture of the capture that a text of at most 4 MiB is, or else of the script that it is.
#[tactic(auto, unfolding(crate::specs::Drawn::drawn_text))]
pub fn draw_text<K: Sink>(
    alloc: Global,
    form: Form,
    text: &[u8],
    sink: &mut K,
) -> Result<(), DrawFault>
    requires { length text.now ≤ TEXT_LIMIT }
    ensures whole { OnOk result (Takes (K.contents sink.old) (drawn_text form text.now)
        (K.contents sink.new)) }
    ensures prefix { OnErr result (TakesPrefix (K.contents sink.old) (drawn_text form text.now)
        (K.contents sink.new)) }
    ensures good { OnOk result (IsGood (capture_in text.now) (script_in text.now)) }
    ensures cause { IfErr result (λ fault. IsCause (capture_in text.now) (script_in text.now) fault) }
    ensures nothing_written { IfErr result
        (λ fault. writes_nothing fault ≡ true → sink.new ≡ sink.old) }
    ensures write_fault { IsErrOf result DrawFault.WriteFault
        → HasFault (K.faults sink.old) (K.faults sink.new) }
    ensures later { K.faults sink.old ≤ K.faults sink.new }
{
    match read_capture(alloc, text) {
        Ok(Ok(capture)) => draw(alloc, form, &capture.config, &capture.packets, sink),
        Ok(Err(fault)) => draw_other(alloc, form, text, fault, sink),
        Err(OutOfMemory) => Err(DrawFault::OutOfMemory),
    }
}
