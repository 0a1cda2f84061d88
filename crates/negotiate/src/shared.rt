ghost use Rattle.std.specs.Prelude.{◌≡◌};
ghost use Rattle.negotiate.specs.OwnSizes.{may_be_own};

use spdm_grammar::names::{MAX_MESSAGE_SIZE, MIN_DATA_TRANSFER_SIZE};

/// The common capabilities of two endpoints.
#[derive(Clone, Copy, Debug, PartialEq, Eq)]
pub struct Common {
    /// MEAS_CAP of the responder is 01 or 10: it has measurements.
    pub measure: bool,
    /// HBEAT_CAP at both ends.
    pub heartbeat: bool,
    /// KEY_UPD_CAP at both ends.
    pub key_update: bool,
    /// CHUNK_CAP at both ends.
    pub chunk: bool,
    /// The sizes of messages to the requester.
    pub to_requester: Sizes,
    /// The sizes of messages to the responder.
    pub to_responder: Sizes,
}

/// The message sizes that an endpoint receives, in bytes: as announced, and at most 4,096.
#[derive(Clone, Copy, Debug, PartialEq, Eq)]
pub struct Sizes {
    /// DataTransferSize: unchunked.
    pub transfer: u32,
    /// MaxSPDMmsgSize: in chunks.
    pub max: u32,
}

impl Sizes {
    /// Whether they are valid for an endpoint: DataTransferSize from 42 to 4,096, and MaxSPDMmsgSize from it to 4,096;
    /// without CHUNK_CAP they are equal.
    pub fn may_be_own(&self, chunk: bool) -> bool
        ensures { result ≡ may_be_own self.now chunk }
    {
        let has_room = self.transfer >= MIN_DATA_TRANSFER_SIZE;
        let is_ordered = self.transfer <= self.max && self.max <= MAX_MESSAGE_SIZE;
        has_room && is_ordered && (chunk || self.max == self.transfer)
    }
}
