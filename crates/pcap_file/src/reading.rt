ghost use Rattle.std.specs.Prelude.{◌≡◌, ◌≤◌, ◌<◌, ◌+◌, ◌-◌, ◌^◌, take, drop, length, IfOk, IfSome};
ghost use Rattle.pcap_file.specs.Outcome.{IsRead};
ghost use Rattle.pcap_file.specs.Reading.{is_mctp, is_version, order_by, order_in, packets_in, records_in, size_in};

use crate::{ByteOrder, PcapFault, ReadError};
use script_text::Packets;
use spdm_basis::Bytes;
use std::alloc::Global;

// How many bytes the header of a file has, and a record before its packet.
const HEADER: usize = 24;

const RECORD_HEAD: usize = 16;

// The most bytes of a packet, and the most packets of a file.
const LONGEST: u32 = 8_000;

const MOST_PACKETS: u32 = 100_000;

// The link type of MCTP.
const MCTP: u32 = 291;

// The order of the bytes of numbers, by the magic number.
#[tactic(auto, unfolding(crate::specs::Reading::order_by))]
fn order_by(magic: &[u8]) -> Option<ByteOrder>
    ensures { result ≡ order_by magic.now }
{
    if magic == [0xd4, 0xc3, 0xb2, 0xa1].as_slice()
        || magic == [0x4d, 0x3c, 0xb2, 0xa1].as_slice()
    {
        Some(ByteOrder::Little)
    } else if magic == [0xa1, 0xb2, 0xc3, 0xd4].as_slice()
        || magic == [0xa1, 0xb2, 0x3c, 0x4d].as_slice()
    {
        Some(ByteOrder::Big)
    } else {
        None
    }
}

// The order of the bytes of numbers, where a file has a header.
#[tactic(auto, unfolding(crate::specs::Reading::order_in))]
fn order_in(file: &[u8]) -> Option<ByteOrder>
    ensures order { result ≡ order_in file.now }
    ensures long { IfSome result (λ _. HEADER ≤ length file.now) }
{
    if file.len() < HEADER {
        return None;
    }
    order_by(&file[..4])
}

// Whether the version is 2.4.
fn is_version(order: ByteOrder, file: &[u8]) -> bool
    requires { HEADER ≤ length file.now }
    ensures { result ≡ is_version order file.now }
{
    let version = &file[4..8];
    match order {
        ByteOrder::Little => version == [2, 0, 4, 0].as_slice(),
        ByteOrder::Big => version == [0, 2, 0, 4].as_slice(),
    }
}

// The size of the packet of the record with which bytes begin. This is the place of the first of them.
#[tactic(auto, unfolding(crate::specs::Reading::size_in))]
fn size_in(at: u32, order: ByteOrder, bytes: &[u8]) -> Result<usize, PcapFault>
    ensures size { result ≡ size_in at order bytes.now }
    ensures fits { IfOk result (λ size. RECORD_HEAD + size ≤ length bytes.now) }
    ensures small { IfOk result (λ size. size ≤ LONGEST) }
{
    if bytes.len() < RECORD_HEAD {
        return Err(PcapFault::CutShort(at));
    }
    let size = order.number_at(8, bytes);
    if size != order.number_at(12, bytes) {
        return Err(PcapFault::PartOfPacket(at));
    }
    if size > LONGEST {
        return Err(PcapFault::LongPacket(at));
    }
    let size = size as usize;
    if bytes.len() < RECORD_HEAD + size {
        return Err(PcapFault::CutShort(at));
    }
    Ok(size)
}

// The packets of the records behind the header.
fn read_records(alloc: Global, order: ByteOrder, file: &[u8]) -> Result<Packets, ReadError>
    requires header { HEADER ≤ length file.now }
    requires places { length file.now < 2 ^ 32 }
    ensures { IsRead (records_in MOST_PACKETS HEADER order (drop HEADER file.now)) result }
{
    let (_, mut rest) = file.split_at(HEADER);
    let mut packets = Packets::new(alloc);
    let mut left = MOST_PACKETS;
    while !rest.is_empty() {
        let at = (file.len() - rest.len()) as u32;
        if left == 0 {
            return Err(ReadError::Fault(PcapFault::TooManyPackets(at)));
        }
        let size = match size_in(at, order, rest) {
            Ok(size) => size,
            Err(fault) => return Err(ReadError::Fault(fault)),
        };
        let (record, others) = rest.split_at(RECORD_HEAD + size);
        let (_, packet) = record.split_at(RECORD_HEAD);
        packets.push(Bytes::copy(alloc, packet)?)?;
        rest = others;
        left -= 1;
    }
    Ok(packets)
}

/// The packets of a file, in their order, or its first fault.
#[tactic(auto, unfolding(crate::specs::Reading::packets_in))]
pub fn read_packets(alloc: Global, file: &[u8]) -> Result<Packets, ReadError>
    requires { length file.now < 2 ^ 32 }
    ensures { IsRead (packets_in file.now) result }
{
    let Some(order) = order_in(file) else {
        return Err(ReadError::Fault(PcapFault::NotPcap));
    };
    if !is_version(order, file) {
        return Err(ReadError::Fault(PcapFault::OtherVersion));
    }
    if order.number_at(20, file) != MCTP {
        return Err(ReadError::Fault(PcapFault::OtherLink));
    }
    read_records(alloc, order, file)
}
