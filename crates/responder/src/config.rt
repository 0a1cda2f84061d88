use spdm_basis::{Bytes, Eid, Psk};
use spdm_grammar::{BlockSpec, FlagSet, Suites};

/// A requester known to the responder.
#[derive(Drop)]
pub struct Known {
    /// Its endpoint ID.
    pub eid: Eid,
    /// PSKHint of its PSK_EXCHANGE: at most 64 bytes.
    pub hint: Bytes,
    /// The pre-shared key.
    pub psk: Psk,
}

/// The configuration of a responder.
#[derive(Clone, Copy)]
pub struct RspConfig<'a> {
    /// Its endpoint ID.
    pub eid: Eid,
    /// DataTransferSize: the longest message that it receives unchunked, from 42 to 4,096 bytes.
    pub transfer: u32,
    /// MaxSPDMmsgSize: the longest message that it receives in chunks, from DataTransferSize to 4,096 bytes; without
    /// CHUNK_CAP equal to DataTransferSize.
    pub max: u32,
    /// Payload bytes per packet (the transmission unit), from 64 to 1,024.
    pub unit: u16,
    /// HeartbeatPeriod of PSK_EXCHANGE_RSP, in seconds; with 0 sessions are not timed. Where HBEAT_CAP is not in common
    /// 0 is sent.
    pub beat: u8,
    /// The optional capabilities that it announces.
    pub flags: FlagSet,
    /// OpaqueData of PSK_EXCHANGE_RSP: at most 1,024 bytes.
    pub opaque: &'a [u8],
    /// Its measurement blocks, in any order.
    pub blocks: &'a [BlockSpec],
    /// The known requesters: at most eight.
    pub known: &'a [Known],
    /// The algorithms that it supports.
    pub suites: Suites,
}
