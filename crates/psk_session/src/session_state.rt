ghost use Rattle.std.specs.Prelude.{◌≡◌, List, true};
ghost use Rattle.requester_machine.specs.Order.{stage_for};
ghost use Rattle.requester_machine.specs.Records.{asks_all};
ghost use Rattle.spdm_grammar.specs.Message.{ChunkMessage};
ghost use Rattle.psk_session.specs.ReqSession.{awaited_in, is_awaiting, is_open};
ghost use Rattle.psk_session.specs.Waiting.{awaited_by};

use crate::session_request::Awaited;
use spdm_grammar::Stage;

// How a session stands: it is open with nothing outstanding, it awaits an answer, or it is ended or lost.
#[derive(Clone, Copy)]
pub enum SessionState {
    Open,
    Awaits(Awaited),
    Closed,
}

impl SessionState {
    // Whether it is open, with nothing outstanding.
    pub fn is_open(self) -> bool
        ensures { result ≡ is_open self }
    {
        matches!(self, SessionState::Open)
    }

    // Whether an answer is awaited.
    pub fn is_awaiting(self) -> bool
        ensures { result ≡ is_awaiting self }
    {
        matches!(self, SessionState::Awaits(_))
    }

    // What is awaited.
    pub fn awaited(self) -> Awaited
        requires { is_awaiting self ≡ true }
        ensures { result ≡ awaited_in self }
    {
        match self {
            SessionState::Awaits(awaited) => awaited,
            _ => unreachable!(),
        }
    }

    // The stage that is shown.
    pub fn stage(self) -> Stage
        ensures { (before : List ChunkMessage)
            → result ≡ stage_for (awaited_by (awaited_in self) before) }
    {
        match self {
            SessionState::Awaits(awaited) => awaited.stage(),
            _ => Stage::Open,
        }
    }

    // Whether the answer to an update of all keys is awaited.
    pub fn is_of_all(self) -> bool
        ensures { (before : List ChunkMessage)
            → result ≡ asks_all (awaited_by (awaited_in self) before) }
    {
        match self {
            SessionState::Awaits(awaited) => awaited.is_of_all(),
            _ => false,
        }
    }
}
