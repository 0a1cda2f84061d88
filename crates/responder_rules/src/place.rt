use crate::Where;
use negotiate::Common;
use spdm_grammar::{Choice, Phase, Stage};

/// What the rules for requests go by at a place.
#[derive(Clone, Copy, Debug, PartialEq, Eq)]
pub struct Place {
    pub at: Where,
    /// How far the connection has come. A session is live in phase Negotiated alone.
    pub phase: Phase,
    /// How far the session has come; Handshake outside a session.
    pub stage: Stage,
    pub choice: Choice,
    pub common: Common,
    /// Whether a chunk of a large response is still to be given here.
    pub pending: bool,
}
