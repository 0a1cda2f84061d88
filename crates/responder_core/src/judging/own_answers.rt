use crate::in_sessions::records::record_id;
use crate::{Connection, Sessions};
use responder_session::AnswerKey;
use spdm_basis::RecordFrame;

impl Sessions {
    ghost use Rattle.std.specs.Prelude.{◌≡◌, ◌<◌, ◌-◌, ◌^◌, true, false};
    ghost use Rattle.responder_machine.specs.Answer.{Free};
    ghost use Rattle.responder_machine.specs.BoundLaws.{messages_of};
    ghost use Rattle.responder_machine.specs.History.{History, ended_of};
    ghost use Rattle.responder_machine.specs.Records.{opened};
    ghost use Rattle.responder_machine.specs.Responder.{repeats};
    ghost use Rattle.responder_machine.specs.Session.{id_in_record, last_of, session_of};
    ghost use Rattle.responder_machine.specs.Setup.{RspSetup};
    ghost use Rattle.responder_core.specs.OwnAnswers.{IsNextKey, IsReplyKey, belongs_in, opens_in};
    ghost use Rattle.responder_core.specs.Sessions.{StandsFor};

    /// Whether a record opens as the next one of the session that it names; its inner message then overwrites `inner`.
    /// Nothing changes.
    pub fn reads_request(&self, sealed: &[u8], inner: &mut RecordFrame) -> bool
        ensures opens { (r : RspSetup) (h : History) → StandsFor self.now r h
            → result ≡ opens_in r (session_of (id_in_record sealed.now) h) sealed.now }
        ensures inner { (r : RspSetup) (h : History) → StandsFor self.now r h → result ≡ true
            → inner.new ≡ opened r.psk (session_of (id_in_record sealed.now) h) sealed.now }
    {
        match self.session(record_id(sealed).rsp) {
            Some(live) => live.session.read_request(sealed, inner).is_ok(),
            None => false,
        }
    }

    /// Whether a record is the last one that the session that it names took.
    pub fn repeats_last(&self, sealed: &[u8]) -> bool
        ensures { (r : RspSetup) (h : History) → StandsFor self.now r h
            → result ≡ repeats (last_of (session_of (id_in_record sealed.now) h)) sealed.now }
    {
        match self.session(record_id(sealed).rsp) {
            Some(live) => live.session.repeats_last(sealed),
            None => false,
        }
    }

    /// Whether a record is the last one of the ended session.
    pub fn repeats_ended(&self, sealed: &[u8]) -> bool
        ensures { (r : RspSetup) (h : History) → StandsFor self.now r h
            → result ≡ repeats (ended_of h) sealed.now }
    {
        self.ended.is_repeat(sealed)
    }

    /// Whether a record is the last one that the session that it names took, or opens in it. `inner` is scratch space.
    pub fn belongs(&self, sealed: &[u8], inner: &mut RecordFrame) -> bool
        ensures { (r : RspSetup) (h : History) → StandsFor self.now r h
            → result ≡ belongs_in r (session_of (id_in_record sealed.now) h) sealed.now }
    {
        match self.session(record_id(sealed).rsp) {
            Some(live) => live.session.belongs(sealed, inner),
            None => false,
        }
    }

    /// The key of the next answer of the session that a record names; `None` where there is no session, and where its
    /// key has sealed 65,536 records.
    pub fn next_answer_key(&self, sealed: &[u8]) -> Option<AnswerKey>
        ensures { (r : RspSetup) (h : History) → StandsFor self.now r h
            → IsNextKey r (session_of (id_in_record sealed.now) h) result }
    {
        match self.session(record_id(sealed).rsp) {
            Some(live) => live.session.next_answer_key(),
            None => None,
        }
    }

    /// The key of the answer to this record, which depends on no free value; its inner message then overwrites `inner`.
    /// `None` where the session that it names does not open it.
    pub fn answer_key(&self, request: &[u8], inner: &mut RecordFrame) -> Option<AnswerKey>
        ensures { (r : RspSetup) (h : History) (f : Free) → messages_of h < 2 ^ 64 - 1
            → StandsFor self.now r h
            → IsReplyKey r (session_of (id_in_record request.now) h) f request.now inner.new result }
    {
        match self.session(record_id(request).rsp) {
            Some(live) => live.session.answer_key(request, inner),
            None => None,
        }
    }
}

impl Connection {
    ghost use Rattle.std.specs.Prelude.{◌≡◌, ◌<◌, ◌-◌, ◌^◌, true};
    ghost use Rattle.responder_machine.specs.Answer.{Free};
    ghost use Rattle.responder_machine.specs.BoundLaws.{messages_of};
    ghost use Rattle.responder_machine.specs.History.{History, ended_of};
    ghost use Rattle.responder_machine.specs.Records.{opened};
    ghost use Rattle.responder_machine.specs.Responder.{repeats};
    ghost use Rattle.responder_machine.specs.Session.{id_in_record, last_of, session_of};
    ghost use Rattle.responder_machine.specs.Setup.{RspSetup};
    ghost use Rattle.responder_core.specs.Connected.{StandsFor};
    ghost use Rattle.responder_core.specs.OwnAnswers.{IsNextKey, IsReplyKey, belongs_in, opens_in};

    /// Whether a record opens as the next one of the session that it names; its inner message then overwrites `inner`.
    /// Nothing changes.
    pub fn reads_request(&self, sealed: &[u8], inner: &mut RecordFrame) -> bool
        ensures opens { (r : RspSetup) (h : History) → StandsFor self.now r h
            → result ≡ opens_in r (session_of (id_in_record sealed.now) h) sealed.now }
        ensures inner { (r : RspSetup) (h : History) → StandsFor self.now r h → result ≡ true
            → inner.new ≡ opened r.psk (session_of (id_in_record sealed.now) h) sealed.now }
    {
        self.sessions.reads_request(sealed, inner)
    }

    /// Whether a record is the last one that the session that it names took.
    pub fn repeats_last(&self, sealed: &[u8]) -> bool
        ensures { (r : RspSetup) (h : History) → StandsFor self.now r h
            → result ≡ repeats (last_of (session_of (id_in_record sealed.now) h)) sealed.now }
    {
        self.sessions.repeats_last(sealed)
    }

    /// Whether a record is the last one of the ended session.
    pub fn repeats_ended(&self, sealed: &[u8]) -> bool
        ensures { (r : RspSetup) (h : History) → StandsFor self.now r h
            → result ≡ repeats (ended_of h) sealed.now }
    {
        self.sessions.repeats_ended(sealed)
    }

    /// Whether a record is the last one that the session that it names took, or opens in it. `inner` is scratch space.
    pub fn belongs(&self, sealed: &[u8], inner: &mut RecordFrame) -> bool
        ensures { (r : RspSetup) (h : History) → StandsFor self.now r h
            → result ≡ belongs_in r (session_of (id_in_record sealed.now) h) sealed.now }
    {
        self.sessions.belongs(sealed, inner)
    }

    /// The key of the next answer of the session that a record names; `None` where there is no session, and where its
    /// key has sealed 65,536 records.
    pub fn next_answer_key(&self, sealed: &[u8]) -> Option<AnswerKey>
        ensures { (r : RspSetup) (h : History) → StandsFor self.now r h
            → IsNextKey r (session_of (id_in_record sealed.now) h) result }
    {
        self.sessions.next_answer_key(sealed)
    }

    /// The key of the answer to this record, which depends on no free value; its inner message then overwrites `inner`.
    /// `None` where the session that it names does not open it. Requires fewer than 2^64 - 1 received messages.
    pub fn answer_key(&self, request: &[u8], inner: &mut RecordFrame) -> Option<AnswerKey>
        ensures { (r : RspSetup) (h : History) (f : Free) → messages_of h < 2 ^ 64 - 1
            → StandsFor self.now r h
            → IsReplyKey r (session_of (id_in_record request.now) h) f request.now inner.new result }
    {
        self.sessions.answer_key(request, inner)
    }
}
