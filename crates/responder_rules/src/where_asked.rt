ghost use Rattle.std.specs.Prelude.{◌≡◌};
ghost use Rattle.responder_machine.specs.Handling as handling;
ghost use Rattle.responder_machine.specs.Refusal as refusal;
ghost use Rattle.responder_rules.specs.Place.{where_of};

use spdm_grammar::names::request_code::{
    CHUNK_GET, CHUNK_SEND, END_SESSION, GET_CAPABILITIES, GET_VERSION, HEARTBEAT, KEY_UPDATE,
    NEGOTIATE_ALGORITHMS, PSK_EXCHANGE, PSK_FINISH,
};

/// Where a request comes.
#[derive(Clone, Copy, Debug, PartialEq, Eq)]
pub enum Where {
    /// In a message of its own.
    InClear,
    /// In a large request that arrived in chunks.
    InChunks,
    /// In a record of a session.
    InSession,
}

impl Where {
    // PSK_FINISH, HEARTBEAT, KEY_UPDATE and END_SESSION need a session.
    pub(crate) fn needs_session(self, code: u8) -> bool
        ensures { result ≡ refusal.needs_session (where_of self) code }
    {
        match self {
            Where::InClear | Where::InChunks => {
                matches!(code, PSK_FINISH | HEARTBEAT | KEY_UPDATE | END_SESSION)
            }
            Where::InSession => false,
        }
    }

    // Nothing is sent in chunks inside a session.
    pub(crate) fn is_chunk_in_session(self, code: u8) -> bool
        ensures { result ≡ refusal.is_chunk_in_session (where_of self) code }
    {
        self == Where::InSession && code == CHUNK_SEND
    }

    // The requests that begin and negotiate a connection do not come in a session, and those that neither a large
    // request carries do not arrive in chunks.
    pub(crate) fn is_misplaced(self, code: u8) -> bool
        ensures { result ≡ refusal.is_misplaced (where_of self) code }
    {
        match self {
            Where::InClear => false,
            Where::InChunks => matches!(code, GET_VERSION | CHUNK_SEND | CHUNK_GET),
            Where::InSession => matches!(
                code,
                GET_VERSION | GET_CAPABILITIES | NEGOTIATE_ALGORITHMS | PSK_EXCHANGE
            ),
        }
    }

    // The bytes that stand round an answer: those of CHUNK_SEND_ACK, for a request that arrived in chunks.
    pub(crate) fn bytes_round(self) -> usize
        ensures { result ≡ refusal.bytes_round (where_of self) }
    {
        match self {
            Where::InClear | Where::InSession => 0,
            Where::InChunks => 6,
        }
    }
}
