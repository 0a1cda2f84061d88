use crate::{Closed, Finishing, ReqOpen};
use secured_record::RecordFault;
use spdm_grammar::BadReply;

/// The outcome of a record while PSK_FINISH_RSP is awaited.
#[derive(Drop)]
pub enum FinishTook {
    /// It held PSK_FINISH_RSP: the session is open.
    Open(ReqOpen),
    /// It held something else: the session is lost.
    Bad(Closed, BadReply),
    /// It did not open, and nothing changed.
    Stay(Finishing, RecordFault),
}
