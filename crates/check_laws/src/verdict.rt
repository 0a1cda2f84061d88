ghost use Rattle.std.specs.Prelude.{◌≡◌, [], ◌∷◌, ◌++◌, OnOk, OnErr};

use spdm_basis::{HashBytes, OutOfMemory, SessionId};
use spdm_grammar::{Stage, Why};
use std::alloc::Global;
use std::marker::Model;

/// A session that a capture shows.
#[derive(Debug, Drop)]
pub struct Seen {
    /// The number of its requester, counted from 1.
    pub requester: u8,
    /// ReqSessionID and RspSessionID.
    pub id: SessionId,
    /// Its stage at the responder after the last answered request, and none where it is ended.
    pub stage: Option<Stage>,
    /// The hash of its transcript, as it last was.
    pub hash: HashBytes,
    /// How many different records of it stand in requests.
    pub sent: u64,
    /// How many different records of it stand in answers.
    pub answered: u64,
}

/// The sessions that a capture shows, in the order in which PSK_EXCHANGE_RSP came. In contracts, a list.
#[derive(Debug, Drop)]
pub struct SessionTable {
    pub(crate) items: Vec<Seen>,
}

impl Model for SessionTable {
    ghost use Rattle.std.specs.Prelude.{List};
    ghost use Rattle.check_laws.specs.declared.verdict.Seen.{Seen};

    ghost Value = { List Seen };

    ghost view = { λ t. t.items.items };
}

impl SessionTable {
    /// No sessions.
    pub fn new(alloc: Global) -> Self
        ensures { result ≡ [] }
    {
        SessionTable {
            items: Vec::new(alloc),
        }
    }

    /// Appends a session. An `Err` leaves the table as it was.
    pub fn push(&mut self, seen: Seen) -> Result<(), OutOfMemory>
        ensures ok { OnOk result (self.new ≡ self.old ++ seen ∷ []) }
        ensures err { OnErr result (self.new ≡ self.old) }
    {
        self.items.push(seen).map_err(|_| OutOfMemory)
    }

    /// The sessions.
    pub fn as_slice(&self) -> &[Seen]
        ensures { result.now ≡ self.now }
    {
        self.items.as_slice()
    }
}

/// What a capture comes to.
#[derive(Debug, Drop)]
pub enum Verdict {
    /// The ends could have made it, and it shows these sessions.
    Conforms(SessionTable),
    /// They could not.
    Differs {
        /// The first packet that does not conform, counted from 1.
        packet: u32,
        /// The first reason that holds there.
        why: Why,
    },
}
