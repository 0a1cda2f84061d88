use spdm_grammar::ErrorCode;

/// The values that are left free in the response to a record, as they are handed in.
#[derive(Clone, Copy, Debug, PartialEq, Eq)]
pub struct ResponseValues<'a> {
    /// Nonce of MEASUREMENTS: 32 bytes.
    pub nonce: &'a [u8],
    /// OpaqueData of MEASUREMENTS: at most 1,024 bytes.
    pub opaque: &'a [u8],
    /// Handle of a response that is sent in chunks.
    pub handle: u8,
    /// The application data sent in answer to application data: at most 1,024 bytes.
    pub reply: &'a [u8],
    /// The padding of the record: at most 16 bytes.
    pub pad: &'a [u8],
}

impl<'a> ResponseValues<'a> {
    ghost use Rattle.std.specs.Prelude.{◌≡◌, ◌≤◌, [], length};

    // Padding alone, which is all that a session needs that is not open.
    pub(crate) fn padding(pad: &'a [u8]) -> ResponseValues<'a>
        ensures nonce { length result.nonce.now ≡ 32 }
        ensures opaque { result.opaque.now ≡ [] }
        ensures reply { result.reply.now ≡ [] }
        ensures pad { result.pad.now ≡ pad.now }
    {
        ResponseValues {
            nonce: &[0; 32],
            opaque: &[],
            handle: 0,
            reply: &[],
            pad,
        }
    }
}

// The effect of an inner message in a session, apart from the bytes of its response.
#[derive(Clone, Copy)]
pub enum RequestEffect<'a> {
    // It is refused with this code.
    Refused(ErrorCode),
    // It is application data.
    Data,
    // PSK_FINISH with these verify data, which are right.
    Finished { verify: &'a [u8] },
    // HEARTBEAT.
    Alive,
    // GET_MEASUREMENTS, answered at once.
    Measured { op: u8 },
    // GET_MEASUREMENTS, whose answer is sent in chunks under this handle.
    Large { op: u8, handle: u8 },
    // KEY_UPDATE with UpdateKey or UpdateAllKeys.
    Update { all: bool, tag: u8 },
    // KEY_UPDATE with VerifyNewKey.
    Verified { tag: u8 },
    // END_SESSION.
    Ended,
    // CHUNK_GET of the next chunk of the pending large response.
    Chunk { handle: u8, number: u16 },
}
