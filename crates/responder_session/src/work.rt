use spdm_basis::{Frame, RecordFrame};

/// Scratch buffers for handling a record. Their contents between calls are irrelevant, so one `Work` serves any number
/// of sessions.
#[derive(Drop)]
pub struct Work {
    // The inner message of the record.
    pub(crate) inner: RecordFrame,
    // The whole answer to it.
    pub(crate) answer: Frame,
    // The inner message that is sent.
    pub(crate) sent: RecordFrame,
}

impl Work {
    /// Empty buffers.
    pub fn new() -> Work {
        Work {
            inner: RecordFrame::new(),
            answer: Frame::new(),
            sent: RecordFrame::new(),
        }
    }
}
