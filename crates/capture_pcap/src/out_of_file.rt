ghost use Rattle.std.specs.Prelude.{◌≡◌, ◌≤◌, ◌<◌, ◌++◌, ℕ, List, [], Err, Ok, Some, length, true, IfErr, IfOk, IsErrOf, OnErr, OnOk};
ghost use Rattle.capture_pcap.specs.Captures.{AreParts, IsCause, IsFileCause, IsReadCause, IsWriteCause, capture_of, told_of, writes_nothing};
ghost use Rattle.capture_text.specs.Written.{packet_lines};
ghost use Rattle.frame_stream.specs.Text.{stream_of, text_of};
ghost use Rattle.pcap_file.specs.Reading.{packets_in};
ghost use Rattle.script_text.specs.ScriptText.{capture_in};
ghost use Rattle.script_text.specs.declared.texts.script.Capture.{Capture};
ghost use Rattle.script_text.specs.declared.texts.faults.LineFault.{LineFault};
ghost use Rattle.spdm_basis.specs.Stream.{Gives, GivesSome, HasFault, Takes, TakesPrefix};

use capture_text::{WriteError, write_packet_lines};
use frame_stream::read_text;
use pcap_file::{PcapFault, ReadError, read_packets};
use script_text::{LineFault, Packets, ScriptFault, TEXT_LIMIT, parse_capture};
use spdm_basis::{Bytes, InFault, Sink, Source, read_all, write_all};
use std::alloc::Global;
use thiserror::Error;

// The most bytes of a file: 4 MiB. Each file that is written of a capture has less.
const FILE_LIMIT: usize = 4 * 1024 * 1024;

/// Why the capture of a configuration and a pcap file was not written.
#[derive(Clone, Copy, Debug, PartialEq, Eq, Error)]
pub enum FromPcapFault {
    /// The first bad line of the configuration, counted from 1, and its first fault. Nothing was written.
    #[error("line {0}: {1}")]
    Line(u32, LineFault),
    /// The first fault of the file. Nothing was written.
    #[error("{0}")]
    File(PcapFault),
    /// The configuration has more than 4 MiB. Nothing was written.
    #[error("a configuration of more than 4 MiB")]
    LongText,
    /// The file has more than 4 MiB. Nothing was written.
    #[error("a file of more than 4 MiB")]
    LongFile,
    /// Reading failed. Nothing was written.
    #[error("reading failed")]
    ReadFault,
    /// Writing failed, after a part of the capture.
    #[error("writing failed")]
    WriteFault,
    /// Out of memory, possibly after a part of the capture.
    #[error("out of memory")]
    OutOfMemory,
}

impl From<ScriptFault> for FromPcapFault {
    ghost from_gives = { λ given error. error ≡ told_of given };

    fn from(fault: ScriptFault) -> FromPcapFault {
        match fault {
            ScriptFault::Line(line, fault) => FromPcapFault::Line(line, fault),
            ScriptFault::TooManyEvents(line) => FromPcapFault::Line(line, LineFault::TooManyEvents),
            ScriptFault::OutOfMemory => FromPcapFault::OutOfMemory,
        }
    }
}

// Reads the file that follows the text of an input, of which these bytes were read already.
fn read_file<S: Source>(
    alloc: Global,
    before: &[u8],
    source: &mut S,
) -> Result<Bytes, FromPcapFault>
    requires { length before.now ≤ 4096 }
    ensures whole { IfOk result (λ file. (rest : List ℕ) → S.remaining source.old ≡ Some rest
        → file ≡ before.now ++ rest) }
    ensures within { IfOk result (λ file. length file ≤ FILE_LIMIT) }
    ensures fault { IfErr result (λ fault. IsFileCause before.now (S.remaining source.old)
        (S.faults source.old) (S.faults source.new) fault) }
    ensures later { S.faults source.old ≤ S.faults source.new }
{
    let rest = match read_all(alloc, source, FILE_LIMIT - before.len()) {
        Ok(rest) => rest,
        Err(InFault::ReadFault) => return Err(FromPcapFault::ReadFault),
        Err(InFault::TooLong) => return Err(FromPcapFault::LongFile),
        Err(InFault::OutOfMemory) => return Err(FromPcapFault::OutOfMemory),
    };
    let Ok(mut file) = Bytes::copy(alloc, before) else {
        return Err(FromPcapFault::OutOfMemory);
    };
    match file.extend(rest.as_slice()) {
        Ok(()) => Ok(file),
        Err(_) => Err(FromPcapFault::OutOfMemory),
    }
}

// Writes the text of a configuration, and the lines of packets behind it.
fn write_capture<K: Sink>(
    alloc: Global,
    text: &[u8],
    packets: &Packets,
    sink: &mut K,
) -> Result<(), FromPcapFault>
    ensures whole { OnOk result (Takes (K.contents sink.old) (text.now ++ packet_lines 1 packets.now)
        (K.contents sink.new)) }
    ensures prefix { OnErr result (TakesPrefix (K.contents sink.old)
        (text.now ++ packet_lines 1 packets.now) (K.contents sink.new)) }
    ensures fault { IfErr result (λ fault. IsWriteCause (K.faults sink.old) (K.faults sink.new) fault) }
    ensures later { K.faults sink.old ≤ K.faults sink.new }
{
    match write_all(sink, text) {
        Ok(()) => {}
        Err(_) => return Err(FromPcapFault::WriteFault),
    }
    match write_packet_lines(alloc, packets.as_slice(), sink) {
        Ok(()) => Ok(()),
        Err(WriteError::WriteFault) => Err(FromPcapFault::WriteFault),
        Err(WriteError::OutOfMemory) => Err(FromPcapFault::OutOfMemory),
    }
}

// The text of an input, and the packets of the file behind it.
#[derive(Drop)]
struct Parts {
    text: Bytes,
    packets: Packets,
}

// Reads an input whose text is good.
fn read_parts<S: Source>(alloc: Global, source: &mut S) -> Result<Parts, FromPcapFault>
    ensures parts { IfOk result (λ parts. (input : List ℕ) → S.remaining source.old ≡ Some input
        → AreParts input parts.text parts.packets) }
    ensures cause { IfErr result (λ fault. IsReadCause (S.remaining source.old)
        (S.faults source.old) (S.faults source.new) fault) }
    ensures later { S.faults source.old ≤ S.faults source.new }
{
    let read = match read_text(alloc, source, TEXT_LIMIT) {
        Ok(read) => read,
        Err(InFault::ReadFault) => return Err(FromPcapFault::ReadFault),
        Err(InFault::TooLong) => return Err(FromPcapFault::LongText),
        Err(InFault::OutOfMemory) => return Err(FromPcapFault::OutOfMemory),
    };
    match parse_capture(alloc, read.text.as_slice()) {
        Ok(_) => {}
        Err(fault) => return Err(FromPcapFault::from(fault)),
    }
    let file = match read_file(alloc, read.before.as_slice(), source) {
        Ok(file) => file,
        Err(fault) => return Err(fault),
    };
    match read_packets(alloc, file.as_slice()) {
        Ok(packets) => Ok(Parts {
            text: read.text,
            packets,
        }),
        Err(ReadError::Fault(fault)) => Err(FromPcapFault::File(fault)),
        Err(ReadError::NoMemory) => Err(FromPcapFault::OutOfMemory),
    }
}

/// Reads a configuration, up to and with its line `end`, and the bytes of a pcap file behind it; and writes the text of
/// the configuration with a line for each packet of the file: a capture.
#[tactic(auto, unfolding(crate::specs::Captures::capture_of))]
pub fn from_pcap<S: Source, K: Sink>(
    alloc: Global,
    source: &mut S,
    sink: &mut K,
) -> Result<(), FromPcapFault>
    ensures whole { OnOk result ((input : List ℕ) → S.remaining source.old ≡ Some input
        → Takes (K.contents sink.old) (capture_of input) (K.contents sink.new)) }
    ensures parts { OnOk result ((input : List ℕ) → S.remaining source.old ≡ Some input
        → (packets : List (List ℕ)) × AreParts input (text_of input) packets) }
    ensures prefix { OnErr result ((input : List ℕ) → S.remaining source.old ≡ Some input
        → TakesPrefix (K.contents sink.old) (capture_of input) (K.contents sink.new)) }
    ensures cause { IfErr result (λ fault. (input : List ℕ) → S.remaining source.old ≡ Some input
        → IsCause input fault) }
    ensures nothing_written { IfErr result
        (λ fault. writes_nothing fault ≡ true → sink.new ≡ sink.old) }
    ensures read_fault { IsErrOf result FromPcapFault.ReadFault
        → HasFault (S.faults source.old) (S.faults source.new) }
    ensures write_fault { IsErrOf result FromPcapFault.WriteFault
        → HasFault (K.faults sink.old) (K.faults sink.new) }
    ensures read_later { S.faults source.old ≤ S.faults source.new }
    ensures written_later { K.faults sink.old ≤ K.faults sink.new }
{
    match read_parts(alloc, source) {
        Ok(parts) => write_capture(alloc, parts.text.as_slice(), &parts.packets, sink),
        Err(fault) => Err(fault),
    }
}
