use crate::{Choice, Stage};
use spdm_basis::{HashBytes, SessionId};

/// A view of a session at one endpoint.
#[derive(Clone, Debug, Drop)]
pub struct SessionView {
    pub id: SessionId,
    pub stage: Stage,
    /// Key epoch of the request direction: the number of updates.
    pub request_epoch: u64,
    /// Key epoch of the response direction: the number of updates.
    pub response_epoch: u64,
    /// Sequence number of the next request record.
    pub request_next: u32,
    /// Sequence number of the next response record.
    pub response_next: u32,
    /// Application messages received at this endpoint.
    pub taken: u64,
    /// The hash of T1 in the handshake, and of T2 after it.
    pub hash: HashBytes,
    pub choice: Choice,
}
