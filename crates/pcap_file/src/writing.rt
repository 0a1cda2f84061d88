ghost use Rattle.std.specs.Prelude.{◌≡◌, ◌≤◌, ℕ, OnOk, OnErr};
ghost use Rattle.pcap_file.specs.Numbers.{four_bytes};
ghost use Rattle.pcap_file.specs.Writing.{file_of, header, record_head, record_of, records_from};
ghost use Rattle.spdm_basis.specs.Stream.{HasFault, Takes, TakesPrefix};

use spdm_basis::{Bytes, OutFault, Sink, write_all};

// The header of a file: magic number, version 2.4, two fields of zeros, the longest packet, the link type.
const FILE_HEAD: [u8; 24] = [
    0xd4, 0xc3, 0xb2, 0xa1, 2, 0, 4, 0, 0, 0, 0, 0, 0, 0, 0, 0, 0, 0, 1, 0, 0x23, 1, 0, 0,
];

// What stands before a packet: its time, which is the number in microseconds, and its size, twice.
fn record_head(number: usize, size: usize) -> [u8; 16]
    ensures { result ≡ record_head number size }
{
    let low = (size % 256) as u8;
    let second = (size / 256 % 256) as u8;
    let third = (size / 65_536 % 256) as u8;
    let high = (size / 16_777_216 % 256) as u8;
    [
        0,
        0,
        0,
        0,
        (number % 256) as u8,
        (number / 256 % 256) as u8,
        (number / 65_536 % 256) as u8,
        (number / 16_777_216 % 256) as u8,
        low,
        second,
        third,
        high,
        low,
        second,
        third,
        high,
    ]
}

// Writes the record of a packet.
fn write_record<K: Sink>(number: usize, packet: &[u8], sink: &mut K) -> Result<(), OutFault>
    ensures whole { OnOk result (Takes (K.contents sink.old) (record_of number packet.now)
        (K.contents sink.new)) }
    ensures prefix { OnErr result (TakesPrefix (K.contents sink.old) (record_of number packet.now)
        (K.contents sink.new)) }
    ensures fault { OnErr result (HasFault (K.faults sink.old) (K.faults sink.new)) }
    ensures later { K.faults sink.old ≤ K.faults sink.new }
{
    let head = record_head(number, packet.len());
    match write_all(sink, &head) {
        Ok(()) => write_all(sink, packet),
        Err(fault) => Err(fault),
    }
}

// Writes the records of packets, which are counted from 1.
fn write_records<K: Sink>(packets: &[Bytes], sink: &mut K) -> Result<(), OutFault>
    ensures whole { OnOk result (Takes (K.contents sink.old) (records_from 1 packets.now)
        (K.contents sink.new)) }
    ensures prefix { OnErr result (TakesPrefix (K.contents sink.old) (records_from 1 packets.now)
        (K.contents sink.new)) }
    ensures fault { OnErr result (HasFault (K.faults sink.old) (K.faults sink.new)) }
    ensures later { K.faults sink.old ≤ K.faults sink.new }
{
    for (index, packet) in packets.iter().enumerate() {
        if let Err(fault) = write_record(index + 1, packet.as_slice(), sink) {
            return Err(fault);
        }
    }
    Ok(())
}

/// Writes the file of packets, a record for each. After `WriteFault` (only if the sink's `faults` count rose) a prefix of
/// the file was written. Never allocates (read, not proved).
pub fn write_packets<K: Sink>(packets: &[Bytes], sink: &mut K) -> Result<(), OutFault>
    ensures whole { OnOk result (Takes (K.contents sink.old) (file_of packets.now)
        (K.contents sink.new)) }
    ensures prefix { OnErr result (TakesPrefix (K.contents sink.old) (file_of packets.now)
        (K.contents sink.new)) }
    ensures fault { OnErr result (HasFault (K.faults sink.old) (K.faults sink.new)) }
    ensures later { K.faults sink.old ≤ K.faults sink.new }
{
    match write_all(sink, &FILE_HEAD) {
        Ok(()) => write_records(packets, sink),
        Err(fault) => Err(fault),
    }
}
