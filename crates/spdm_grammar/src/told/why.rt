use thiserror::Error;

/// Why the packets of a capture stop conforming at this one.
#[derive(Clone, Copy, Debug, PartialEq, Eq, Error)]
pub enum Why {
    /// It is no packet, is dropped, or completes a body of another type.
    #[error("a bad packet")]
    BadPacket,
    /// It does not travel between the responder and a configured requester.
    #[error("an unknown end")]
    UnknownEnd,
    /// No message of its direction is allowed here.
    #[error("out of turn")]
    WrongTurn,
    /// The requester may not send this message.
    #[error("a bad request")]
    BadRequest,
    /// The responder may not answer so.
    #[error("a bad reply")]
    BadReply,
    /// The verify data alone differ: decided by `judged_by` of `check_responder` for an answer, and by
    /// `is_finish_apart` of `check_requester` for PSK_FINISH.
    #[error("bad verify data")]
    BadVerify,
    /// The record does not open.
    #[error("a bad record")]
    BadRecord,
}
