use negotiate::Common;
use spdm_grammar::Choice;

/// What a session stands under.
#[derive(Clone, Copy, Debug, PartialEq, Eq)]
pub struct SessionTerms {
    /// The algorithms that were chosen.
    pub choice: Choice,
    /// What both ends can do.
    pub common: Common,
    /// Whether PSK_EXCHANGE asks for a measurement summary.
    pub summary: bool,
    /// ReqSessionID.
    pub req_id: u16,
}
