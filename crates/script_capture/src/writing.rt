ghost use Rattle.std.specs.Prelude.{◌≡◌, ◌≤◌, ◌<◌, ◌++◌, ℕ, Err, length, true, IfErr, IsErrOf, OnErr, OnOk};
ghost use Rattle.capture_text.specs.Written.{packet_lines};
ghost use Rattle.script_capture.specs.Written.{IsCause, IsGood, capture_text, told_of, writes_nothing};
ghost use Rattle.script_text.specs.Printing.{config_text};
ghost use Rattle.script_text.specs.ScriptText.{script_in};
ghost use Rattle.spdm_basis.specs.Stream.{HasFault, Takes, TakesPrefix};

use crate::CaptureFault;
use crate::carrying::carried_packets;
use capture_text::{WriteError, write_packet_lines};
use script_text::{
    LineFault, Packets, ScriptConfig, ScriptFault, TEXT_LIMIT, parse_script, print_config,
};
use spdm_basis::{Sink, write_all};
use std::alloc::Global;

impl From<ScriptFault> for CaptureFault {
    ghost from_gives = { λ given error. error ≡ told_of given };

    fn from(fault: ScriptFault) -> CaptureFault {
        match fault {
            ScriptFault::Line(line, fault) => CaptureFault::Line(line, fault),
            ScriptFault::TooManyEvents(line) => CaptureFault::Line(line, LineFault::TooManyEvents),
            ScriptFault::OutOfMemory => CaptureFault::OutOfMemory,
        }
    }
}

// Writes a configuration, and the lines of packets behind it.
fn write_text<K: Sink>(
    alloc: Global,
    config: &ScriptConfig,
    packets: &Packets,
    sink: &mut K,
) -> Result<(), WriteError>
    requires { length config.now.requesters ≤ 8 }
    ensures whole { OnOk result (Takes (K.contents sink.old)
        (config_text config.now ++ packet_lines 1 packets.now) (K.contents sink.new)) }
    ensures prefix { OnErr result (TakesPrefix (K.contents sink.old)
        (config_text config.now ++ packet_lines 1 packets.now) (K.contents sink.new)) }
    ensures fault { IsErrOf result WriteError.WriteFault
        → HasFault (K.faults sink.old) (K.faults sink.new) }
    ensures later { K.faults sink.old ≤ K.faults sink.new }
{
    let Ok(text) = print_config(alloc, config) else {
        return Err(WriteError::OutOfMemory);
    };
    match write_all(sink, text.as_slice()) {
        Ok(()) => {}
        Err(_) => return Err(WriteError::WriteFault),
    }
    match write_packet_lines(alloc, packets.as_slice(), sink) {
        Ok(()) => Ok(()),
        Err(fault) => Err(fault),
    }
}

/// Runs the script that a text of at most 4 MiB is, and writes its capture: its configuration, and behind it a line for
/// each packet that its link carries. A packet is carried when it is sent, whether it arrives or not, again when it is
/// delivered once more, and an injected one when it is injected.
#[tactic(auto, unfolding(crate::specs::Written::capture_text))]
pub fn write_capture<K: Sink>(alloc: Global, text: &[u8], sink: &mut K) -> Result<(), CaptureFault>
    requires { length text.now ≤ TEXT_LIMIT }
    ensures whole { OnOk result (Takes (K.contents sink.old) (capture_text text.now)
        (K.contents sink.new)) }
    ensures prefix { OnErr result (TakesPrefix (K.contents sink.old) (capture_text text.now)
        (K.contents sink.new)) }
    ensures good { OnOk result (IsGood (script_in text.now)) }
    ensures cause { IfErr result (λ fault. IsCause (script_in text.now) fault) }
    ensures nothing_written { IfErr result
        (λ fault. writes_nothing fault ≡ true → sink.new ≡ sink.old) }
    ensures write_fault { IsErrOf result CaptureFault.WriteFault
        → HasFault (K.faults sink.old) (K.faults sink.new) }
    ensures later { K.faults sink.old ≤ K.faults sink.new }
{
    let script = parse_script(alloc, text)?;
    let packets = match carried_packets(alloc, &script) {
        Ok(packets) => packets,
        Err(fault) => return Err(fault),
    };
    match write_text(alloc, &script.config, &packets, sink) {
        Ok(()) => Ok(()),
        Err(WriteError::WriteFault) => Err(CaptureFault::WriteFault),
        Err(WriteError::OutOfMemory) => Err(CaptureFault::OutOfMemory),
    }
}
