//! What became of the sessions with one requester between two moments.
ghost use Rattle.std.specs.Prelude.{◌≡◌};
ghost use Rattle.responder.specs.Changes.{change_between, change_of, entered};
ghost use Rattle.spdm_machine.specs.Sessions.{is_past_handshake};

use crate::Responder;
use spdm_basis::{Eid, SessionId};
use spdm_grammar::Stage;
use spdm_grammar::names::SESSION_PLACES;

/// A session at one moment.
#[derive(Clone, Copy, Debug, PartialEq, Eq)]
pub struct SessionMark {
    pub id: SessionId,
    /// Whether it is past its handshake: its PSK_FINISH was accepted.
    pub established: bool,
}

/// What became of the session with one RspSessionID.
#[derive(Clone, Copy, Debug, PartialEq, Eq)]
pub enum SessionChange {
    /// A handshake began: PSK_EXCHANGE was answered.
    Began(SessionId),
    /// The session is established.
    Established(SessionId),
    /// The session is gone: after `on_packet` by END_SESSION, by GET_VERSION, or, in its handshake, by a new
    /// PSK_EXCHANGE; after `tick` since it was silent for twice its HeartbeatPeriod.
    Gone(SessionId),
    /// Another session took its place.
    Replaced { gone: SessionId, by: SessionId },
}

// Whether a session in this stage is past its handshake.
fn is_established(stage: Stage) -> bool
    ensures { result ≡ is_past_handshake stage }
{
    match stage {
        Stage::Handshake => false,
        Stage::Open | Stage::Verifying => true,
    }
}

// What became of a session that is still there, or in whose place another one is.
fn change_of(before: SessionMark, after: SessionMark) -> Option<SessionChange>
    ensures { result ≡ change_of before after }
{
    if before.id != after.id || (before.established && !after.established) {
        return Some(SessionChange::Replaced {
            gone: before.id,
            by: after.id,
        });
    }
    if before.established == after.established {
        return None;
    }
    Some(SessionChange::Established(after.id))
}

/// What became of the session with one RspSessionID, by what was there and what is there; `None` where nothing did. A
/// handshake in whose place another one with the same two ids began is not told apart from it.
pub fn change_between(
    before: Option<SessionMark>,
    after: Option<SessionMark>,
) -> Option<SessionChange>
    ensures { result ≡ change_between before after }
{
    match (before, after) {
        (None, None) => None,
        (None, Some(after)) => Some(entered(after)),
        (Some(before), None) => Some(SessionChange::Gone(before.id)),
        (Some(before), Some(after)) => change_of(before, after),
    }
}

// A session is there that was not.
fn entered(after: SessionMark) -> SessionChange
    ensures { result ≡ entered after }
{
    if after.established {
        SessionChange::Established(after.id)
    } else {
        SessionChange::Began(after.id)
    }
}

/// The sessions with one requester as they stood when they were last asked for.
#[derive(Clone, Copy, Debug)]
pub struct SessionWatch {
    eid: Eid,
    first: Option<SessionMark>,
    second: Option<SessionMark>,
    third: Option<SessionMark>,
    fourth: Option<SessionMark>,
}

impl SessionWatch {
    ghost use Rattle.std.specs.Prelude.{◌≡◌, ◌∷◌, []};
    ghost use Rattle.responder.specs.Changes.{changes_between, marks_at, marks_in};
    ghost use Rattle.responder.specs.Standing.{StandsFor};
    ghost use Rattle.responder_machine.specs.Responding.{Responding, connection_of};

    /// The sessions with this endpoint as they stand now.
    pub fn new(responder: &Responder, eid: Eid) -> SessionWatch
        ensures eid { result.eid ≡ eid }
        ensures marks { (r : Responding) → StandsFor responder.now r
            → marks_in result ≡ marks_at (connection_of eid.number r.connections) }
    {
        SessionWatch {
            eid,
            first: responder.mark(eid, 1),
            second: responder.mark(eid, 2),
            third: responder.mark(eid, 3),
            fourth: responder.mark(eid, 4),
        }
    }

    /// What became of the sessions since they were last asked for, by rising RspSessionID from 1 to 4. Called after
    /// each packet from the requester and after each `tick`, it misses nothing.
    pub fn changes(&mut self, responder: &Responder) -> [Option<SessionChange>; SESSION_PLACES]
        ensures eid { self.new.eid ≡ self.old.eid }
        ensures changes { result ≡ changes_between (marks_in self.old) (marks_in self.new) }
        ensures marks { (r : Responding) → StandsFor responder.now r
            → marks_in self.new ≡ marks_at (connection_of self.old.eid.number r.connections) }
    {
        let before = *self;
        *self = SessionWatch::new(responder, before.eid);
        [
            change_between(before.first, self.first),
            change_between(before.second, self.second),
            change_between(before.third, self.third),
            change_between(before.fourth, self.fourth),
        ]
    }
}

impl Responder {
    ghost use Rattle.std.specs.Prelude.{◌≡◌};
    ghost use Rattle.responder.specs.Changes.{mark_at};
    ghost use Rattle.responder.specs.Standing.{StandsFor};
    ghost use Rattle.responder_machine.specs.Responding.{Responding, connection_of};

    /// The session with this endpoint and RspSessionID as it stands; `None` if there is none.
    pub fn mark(&self, eid: Eid, id: u16) -> Option<SessionMark>
        ensures { (r : Responding) → StandsFor self.now r
            → result ≡ mark_at id (connection_of eid.number r.connections) }
    {
        match self.session(eid, id) {
            Some(view) => Some(SessionMark {
                id: view.id,
                established: is_established(view.stage),
            }),
            None => None,
        }
    }
}
