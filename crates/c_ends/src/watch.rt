// What C is told of the changes of sessions, and how it keeps what stood. The numbers are those of `specs/Watching.antt`.
ghost use Rattle.std.specs.Prelude.{◌≡◌, map};
ghost use Rattle.c_ends.specs.Watching.{change_told, changed, mark_in, marks_in};
ghost use Rattle.responder.specs.Changes.{change_between, changes_between, marks_at};
ghost use Rattle.responder.specs.Standing.{StandsFor};
ghost use Rattle.responder_machine.specs.Responding.{Responding, connection_of};

use crate::packet_outcome::session_number;
use responder::{Responder, SessionChange, SessionMark, change_between};
use spdm_basis::{Eid, SessionId};
use spdm_grammar::names::SESSION_PLACES;

/// A session with one RspSessionID as it stood. Zeros where there was none.
#[repr(C)]
#[derive(Clone, Copy, Debug, PartialEq, Eq)]
pub struct Watched {
    pub req: u16,
    pub rsp: u16,
    /// 0: there is none; 1: it is in its handshake; else it is established.
    pub standing: u32,
}

/// The sessions with one requester as they stood when they were last asked for, by rising RspSessionID. Zeros where there
/// was none.
#[repr(C)]
#[derive(Clone, Copy, Debug, PartialEq, Eq)]
pub struct Watch {
    pub first: Watched,
    pub second: Watched,
    pub third: Watched,
    pub fourth: Watched,
}

/// What became of the session with one RspSessionID. What a kind does not carry is 0.
#[repr(C)]
#[derive(Clone, Copy, Debug, PartialEq, Eq)]
pub struct Change {
    pub kind: u32,
    /// The session that began, is established or is gone.
    pub session: u32,
    /// The session that took its place.
    pub by: u32,
}

/// What became of the sessions with one requester, by rising RspSessionID from 1.
pub type Changes = [Change; SESSION_PLACES];

fn mark_in(watched: Watched) -> Option<SessionMark>
    ensures { result ≡ mark_in watched }
{
    if watched.standing == 0 {
        return None;
    }
    Some(SessionMark {
        id: SessionId {
            req: watched.req,
            rsp: watched.rsp,
        },
        established: watched.standing != 1,
    })
}

fn watched_of(mark: Option<SessionMark>) -> Watched
    ensures { mark_in result ≡ mark }
{
    match mark {
        Some(SessionMark { id, established }) => Watched {
            req: id.req,
            rsp: id.rsp,
            standing: if established { 2 } else { 1 },
        },
        None => Watched {
            req: 0,
            rsp: 0,
            standing: 0,
        },
    }
}

fn changed(kind: u32, session: u32, by: u32) -> Change
    ensures { result ≡ changed kind session by }
{
    Change { kind, session, by }
}

fn change_told(change: Option<SessionChange>) -> Change
    ensures { result ≡ change_told change }
{
    match change {
        None => changed(0, 0, 0),
        Some(SessionChange::Began(id)) => changed(1, session_number(id), 0),
        Some(SessionChange::Established(id)) => changed(2, session_number(id), 0),
        Some(SessionChange::Gone(id)) => changed(3, session_number(id), 0),
        Some(SessionChange::Replaced { gone, by }) => {
            changed(4, session_number(gone), session_number(by))
        }
    }
}

// What became of one session.
fn change_of(before: Watched, after: Watched) -> Change
    ensures { result ≡ change_told (change_between (mark_in before) (mark_in after)) }
{
    change_told(change_between(mark_in(before), mark_in(after)))
}

impl Watch {
    /// The sessions with this endpoint as they stand now.
    pub(crate) fn of(responder: &Responder, eid: Eid) -> Watch
        ensures { (r : Responding) → StandsFor responder.now r
            → marks_in result ≡ marks_at (connection_of eid.number r.connections) }
    {
        Watch {
            first: watched_of(responder.mark(eid, 1)),
            second: watched_of(responder.mark(eid, 2)),
            third: watched_of(responder.mark(eid, 3)),
            fourth: watched_of(responder.mark(eid, 4)),
        }
    }

    /// What became of these sessions since, by how they stand after it.
    pub(crate) fn changes_to(&self, after: &Watch) -> Changes
        ensures { result ≡ map change_told (changes_between (marks_in self.now) (marks_in after.now)) }
    {
        [
            change_of(self.first, after.first),
            change_of(self.second, after.second),
            change_of(self.third, after.third),
            change_of(self.fourth, after.fourth),
        ]
    }
}
