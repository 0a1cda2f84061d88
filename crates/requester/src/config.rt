ghost use Rattle.std.specs.Prelude.{◌≡◌};
ghost use Rattle.requester.specs.Config.{config_fault, is_out_of_range};

use crate::ReqConfigFault;
use negotiate::Sizes;
use spdm_basis::{Eid, Psk};
use spdm_grammar::names::MAX_OPAQUE_LEN;
use spdm_grammar::{FlagSet, Suites};

/// The configuration of a requester.
#[derive(Drop)]
pub struct ReqConfig<'a> {
    /// Its endpoint ID.
    pub eid: Eid,
    /// The endpoint ID of its responder.
    pub responder: Eid,
    /// DataTransferSize: the longest message that it receives unchunked, from 42 to 4,096 bytes.
    pub transfer: u32,
    /// MaxSPDMmsgSize: the longest message that it receives in chunks, from DataTransferSize to 4,096 bytes; without
    /// CHUNK_CAP equal to DataTransferSize.
    pub max: u32,
    /// Payload bytes per packet (the transmission unit), from 64 to 1,024.
    pub unit: u16,
    /// Length of the random data (DSP0277) in the record that a command sends: at most 16 bytes. Records that are sent
    /// when an answer came have none.
    pub pad: u8,
    /// The optional capabilities that it announces.
    pub flags: FlagSet,
    /// PSKHint of PSK_EXCHANGE: at most 64 bytes.
    pub hint: &'a [u8],
    /// The pre-shared key.
    pub psk: Psk,
    /// OpaqueData of PSK_EXCHANGE: at most 1,024 bytes.
    pub opaque: &'a [u8],
    /// The algorithms that it supports.
    pub suites: Suites,
}

impl ReqConfig<'_> {
    // Whether a size, the unit, the padding, the opaque data or the hint is out of its range.
    fn is_out_of_range(&self) -> bool
        ensures { result ≡ is_out_of_range self.now }
    {
        let sizes = Sizes {
            transfer: self.transfer,
            max: self.max,
        };
        !sizes.may_be_own(self.flags.chunk)
            || (self.unit < 64 || self.unit > 1024)
            || self.pad > 16
            || self.opaque.len() > MAX_OPAQUE_LEN
            || self.hint.len() > 64
    }

    /// The first fault of the configuration, in the order of `ReqConfigFault`. Never an allocation failure.
    pub fn fault(&self) -> Option<ReqConfigFault>
        ensures { result ≡ config_fault self.now }
    {
        if self.eid.number() == self.responder.number() {
            return Some(ReqConfigFault::SameEid);
        }
        if self.is_out_of_range() {
            return Some(ReqConfigFault::SizeRange);
        }
        None
    }
}
