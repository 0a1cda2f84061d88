ghost use Rattle.std.specs.Prelude.{◌≡◌};
ghost use Rattle.pcap_file.specs.declared.fault.ReadError.TheVariants.{NoMemory};

use spdm_basis::OutOfMemory;
use thiserror::Error;

/// Why a file is not taken, in the order of the checks: its header, and then its records in their order. A place is
/// that of the first byte of a record, counted from 0.
#[derive(Clone, Copy, Debug, PartialEq, Eq, Error)]
pub enum PcapFault {
    /// It has fewer than 24 bytes, or begins with no magic number of a pcap file.
    #[error("no pcap file")]
    NotPcap,
    /// Its version is not 2.4.
    #[error("a version other than 2.4")]
    OtherVersion,
    /// Its packets are not of MCTP: the link type is not 291.
    #[error("a link type other than 291, that of MCTP")]
    OtherLink,
    /// The end of the file cuts the record.
    #[error("byte {0}: the file ends within a record")]
    CutShort(u32),
    /// The record has another length for the packet than for what it holds of it.
    #[error("byte {0}: a record of a part of a packet")]
    PartOfPacket(u32),
    /// The record has a packet of more than 8,000 bytes.
    #[error("byte {0}: a packet of more than 8,000 bytes")]
    LongPacket(u32),
    /// 100,000 records stand before this one.
    #[error("byte {0}: more than 100,000 packets")]
    TooManyPackets(u32),
}

/// Why the packets of a file were not read.
#[derive(Clone, Copy, Debug, PartialEq, Eq, Error)]
pub enum ReadError {
    #[error("{0}")]
    Fault(PcapFault),
    #[error("out of memory")]
    NoMemory,
}

impl From<OutOfMemory> for ReadError {
    ghost from_gives = { λ _ error. error ≡ NoMemory };

    fn from(_: OutOfMemory) -> ReadError {
        ReadError::NoMemory
    }
}
