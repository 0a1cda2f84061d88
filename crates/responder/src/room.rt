use crate::body::Body;
use responder_session::Work;
use spdm_basis::{Buffer, Frame, OutOfMemory, RecordFrame};
use spdm_grammar::names::MAX_APP_DATA_LEN;
use std::alloc::Global;

// Scratch buffers for one response, allocated once so that no packet clears buffers of its own. Their contents between
// two bodies are irrelevant.
#[derive(Drop)]
pub struct Room {
    // The response body.
    pub(crate) body: Body,
    // The response in the clear.
    pub(crate) message: Frame,
    // The response record.
    pub(crate) record: RecordFrame,
    // The next application data to send in reply: up to 1,024 bytes.
    pub(crate) reply: Buffer<MAX_APP_DATA_LEN>,
    // Scratch space for handling a record.
    pub(crate) work: Box<Work>,
}

impl Room {
    // Empty buffers on the heap, where they stay: two blocks of 13 KB.
    pub(crate) fn new(alloc: Global) -> Result<Box<Room>, OutOfMemory> {
        let Ok(work) = Box::new(alloc, Work::new()) else {
            return Err(OutOfMemory);
        };
        match Box::new(alloc, Room::with(work)) {
            Ok(room) => Ok(room),
            Err(_) => Err(OutOfMemory),
        }
    }

    // Empty buffers, with this scratch space.
    fn with(work: Box<Work>) -> Room {
        Room {
            body: Body::new(),
            message: Frame::new(),
            record: RecordFrame::new(),
            reply: Buffer::new(),
            work,
        }
    }
}

/// What a responder has in blocks of its own beside its requesters and its configuration, in bytes. Tested, and not
/// proved.
pub fn responder_blocks() -> usize {
    size_of::<Room>().saturating_add(size_of::<Work>())
}
