use crate::in_sessions::records::record_id;
use crate::{Connection, Sessions};
use spdm_basis::RecordFrame;

impl Sessions {
    ghost use Rattle.std.specs.Prelude.{◌≡◌, true};
    ghost use Rattle.responder_machine.specs.History.{History};
    ghost use Rattle.responder_machine.specs.Session.{id_in_record, session_of};
    ghost use Rattle.responder_machine.specs.Setup.{RspSetup};
    ghost use Rattle.responder_session.specs.LastRead.{last_opened, reads_last, reply_opened};
    ghost use Rattle.responder_core.specs.Sessions.{StandsFor};

    // Whether these are the last record of the session that it names and its reply, and both open under the present
    // keys, by the numbers before the next ones. Their inner messages then overwrite `inner` and `reply`.
    fn read_last(
        &self,
        sealed: &[u8],
        answer: &[u8],
        inner: &mut RecordFrame,
        reply: &mut RecordFrame,
    ) -> bool
        ensures told { (r : RspSetup) (h : History) → StandsFor self.now r h
            → result ≡ reads_last r.psk (session_of (id_in_record sealed.now) h) sealed.now answer.now }
        ensures inner { (r : RspSetup) (h : History) → StandsFor self.now r h → result ≡ true
            → inner.new ≡ last_opened r.psk (session_of (id_in_record sealed.now) h) sealed.now }
        ensures reply { (r : RspSetup) (h : History) → StandsFor self.now r h → result ≡ true
            → reply.new ≡ reply_opened r.psk (session_of (id_in_record sealed.now) h) answer.now }
    {
        match self.session(record_id(sealed).rsp) {
            Some(live) => live.session.read_last(sealed, answer, inner, reply),
            None => false,
        }
    }
}

// The last record of a session read again, to judge the response to its repeat; used only by the checker.
impl Connection {
    ghost use Rattle.std.specs.Prelude.{◌≡◌, true};
    ghost use Rattle.responder_machine.specs.History.{History};
    ghost use Rattle.responder_machine.specs.Session.{id_in_record, session_of};
    ghost use Rattle.responder_machine.specs.Setup.{RspSetup};
    ghost use Rattle.responder_session.specs.LastRead.{last_opened, reads_last, reply_opened};
    ghost use Rattle.responder_core.specs.Connected.{StandsFor};

    /// Whether these are the last record of the session that it names and its reply, and both open under the present
    /// keys of that session, by the numbers before the next ones: so it is unless the record changed a key. Their inner
    /// messages then overwrite `inner` and `reply`. Nothing changes.
    pub fn read_last(
        &self,
        sealed: &[u8],
        answer: &[u8],
        inner: &mut RecordFrame,
        reply: &mut RecordFrame,
    ) -> bool
        ensures told { (r : RspSetup) (h : History) → StandsFor self.now r h
            → result ≡ reads_last r.psk (session_of (id_in_record sealed.now) h) sealed.now answer.now }
        ensures inner { (r : RspSetup) (h : History) → StandsFor self.now r h → result ≡ true
            → inner.new ≡ last_opened r.psk (session_of (id_in_record sealed.now) h) sealed.now }
        ensures reply { (r : RspSetup) (h : History) → StandsFor self.now r h → result ≡ true
            → reply.new ≡ reply_opened r.psk (session_of (id_in_record sealed.now) h) answer.now }
    {
        self.sessions.read_last(sealed, answer, inner, reply)
    }
}
