use crate::{Closed, Reply, ReqOpen, Waiting};
use secured_record::RecordFault;
use spdm_grammar::BadReply;

/// The outcome of a record while the response to a request is awaited.
#[derive(Drop)]
pub enum Took {
    /// It answered the request: the session is open, with nothing outstanding.
    Answer(ReqOpen, Reply),
    /// A further record is to be sent.
    Next(Waiting),
    /// It held END_SESSION_ACK: the session is ended.
    Ended(Closed),
    /// It held no response to the request: the session is lost.
    Bad(Closed, BadReply),
    /// It did not open, and nothing changed.
    Stay(Waiting, RecordFault),
}
