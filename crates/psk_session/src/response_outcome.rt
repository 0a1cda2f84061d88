use crate::Reply;
use secured_record::RecordFault;
use spdm_grammar::BadReply;

/// The outcome of a record at a `ReqSession` that awaits a response.
#[derive(Clone, Copy, Debug, PartialEq, Eq)]
pub enum ResponseOutcome {
    /// It answered the request: the session is open, with nothing outstanding.
    Answer(Reply),
    /// A further record is to be sent.
    Next,
    /// It held END_SESSION_ACK: the session is ended.
    Ended,
    /// It held no response to the request: the session is lost.
    Bad(BadReply),
    /// It did not open, and nothing changed.
    Stay(RecordFault),
}
