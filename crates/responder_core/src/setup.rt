use measurements::Inventory;
use spdm_basis::Psk;
use spdm_grammar::{FlagSet, Suites};

/// The configuration of a responder for one requester.
#[derive(Clone, Copy)]
pub struct Setup<'a> {
    /// DataTransferSize: the longest message that it receives unchunked, in bytes.
    pub transfer: u32,
    /// MaxSPDMmsgSize: the longest message that it receives in chunks, in bytes.
    pub max: u32,
    /// HeartbeatPeriod, in seconds.
    pub beat: u8,
    /// The optional capabilities that it announces.
    pub flags: FlagSet,
    /// OpaqueData of PSK_EXCHANGE_RSP: at most 1,024 bytes.
    pub opaque: &'a [u8],
    /// Its measurements.
    pub inventory: &'a Inventory,
    /// The algorithms that it supports.
    pub suites: Suites,
    /// The PSKHint that this requester gives.
    pub hint: &'a [u8],
    /// The key that it shares with this requester.
    pub psk: &'a Psk,
}
