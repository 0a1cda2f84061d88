ghost use Rattle.std.specs.Prelude.{◌≡◌, ◌≤◌, ℕ, Err, length, is_ok, true, IsErrOf, OnErr, OnOk};
ghost use Rattle.capture_pcap.specs.Files.{IsBad, pcap_of, told_of};
ghost use Rattle.script_text.specs.ScriptText.{capture_in};
ghost use Rattle.script_text.specs.declared.texts.faults.LineFault.{LineFault};
ghost use Rattle.spdm_basis.specs.Stream.{HasFault, Takes, TakesPrefix};

use pcap_file::write_packets;
use script_text::{LineFault, ScriptFault, TEXT_LIMIT, parse_capture};
use spdm_basis::Sink;
use std::alloc::Global;
use thiserror::Error;

/// Why the file of a capture was not written.
#[derive(Clone, Copy, Debug, PartialEq, Eq, Error)]
pub enum ToPcapFault {
    /// The first bad line, counted from 1, and its first fault. Nothing was written.
    #[error("line {0}: {1}")]
    Line(u32, LineFault),
    /// Writing failed, after a part of the file.
    #[error("writing failed")]
    WriteFault,
    /// Out of memory. Nothing was written.
    #[error("out of memory")]
    OutOfMemory,
}

impl From<ScriptFault> for ToPcapFault {
    ghost from_gives = { λ given error. error ≡ told_of given };

    fn from(fault: ScriptFault) -> ToPcapFault {
        match fault {
            ScriptFault::Line(line, fault) => ToPcapFault::Line(line, fault),
            ScriptFault::TooManyEvents(line) => ToPcapFault::Line(line, LineFault::TooManyEvents),
            ScriptFault::OutOfMemory => ToPcapFault::OutOfMemory,
        }
    }
}

/// Writes the pcap file of the capture that a text of at most 4 MiB is.
#[tactic(auto, unfolding(crate::specs::Files::pcap_of))]
pub fn to_pcap<K: Sink>(alloc: Global, text: &[u8], sink: &mut K) -> Result<(), ToPcapFault>
    requires { length text.now ≤ TEXT_LIMIT }
    ensures whole { OnOk result (Takes (K.contents sink.old) (pcap_of text.now)
        (K.contents sink.new)) }
    ensures prefix { OnErr result (TakesPrefix (K.contents sink.old) (pcap_of text.now)
        (K.contents sink.new)) }
    ensures read { OnOk result (is_ok (capture_in text.now) ≡ true) }
    ensures bad_line { (line : ℕ) (f : LineFault) → result ≡ Err (ToPcapFault.Line line f)
        → IsBad (capture_in text.now) (ToPcapFault.Line line f) }
    ensures write_fault { IsErrOf result ToPcapFault.WriteFault
        → HasFault (K.faults sink.old) (K.faults sink.new) }
    ensures readable { IsErrOf result ToPcapFault.WriteFault → is_ok (capture_in text.now) ≡ true }
    ensures nothing_written { (line : ℕ) (f : LineFault) → result ≡ Err (ToPcapFault.Line line f)
        → sink.new ≡ sink.old }
    ensures no_memory { IsErrOf result ToPcapFault.OutOfMemory → sink.new ≡ sink.old }
    ensures later { K.faults sink.old ≤ K.faults sink.new }
{
    let capture = parse_capture(alloc, text)?;
    match write_packets(capture.packets.as_slice(), sink) {
        Ok(()) => Ok(()),
        Err(_) => Err(ToPcapFault::WriteFault),
    }
}
