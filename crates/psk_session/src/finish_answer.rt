use crate::ReqOpen;
use secured_record::RecordFault;
use spdm_grammar::BadReply;

/// What a record says to a session that awaits PSK_FINISH_RSP.
#[derive(Drop)]
pub enum FinishAnswer {
    /// It held PSK_FINISH_RSP: this is the open session.
    Open(ReqOpen),
    /// It held something else: the session is lost.
    Bad(BadReply),
    /// It did not open.
    Stay(RecordFault),
}
