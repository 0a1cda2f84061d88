ghost use Rattle.std.specs.Prelude.{◌≡◌, ◌<◌, ◌-◌, ◌^◌, ℕ, List, IfSome, is_none, take};
ghost use Rattle.responder_core.specs.Connected as connected;
ghost use Rattle.key_schedule.specs.Purpose.{Purpose};
ghost use Rattle.responder_machine.specs.BoundLaws.{messages_of};
ghost use Rattle.responder_machine.specs.History.{History};
ghost use Rattle.responder_machine.specs.Records.{opened};
ghost use Rattle.responder_machine.specs.Session.{id_in_record, session_of};
ghost use Rattle.responder_machine.specs.Setup.{RspSetup};
ghost use Rattle.responder_session.specs.OwnAnswers.{IsAnswerKey};
ghost use Rattle.spdm_grammar.specs.declared.messages.choice.Choice.{Choice};
ghost use Rattle.spdm_machine.specs.Bodies.{record_body};
ghost use Rattle.spdm_machine.specs.Keys.{record_fault};
ghost use Rattle.check_responder.specs.AnswerKeys.{IsComing, IsComingKey};
ghost use Rattle.capture_machine.specs.Opening.{opens_next};
ghost use Rattle.spdm_grammar.specs.declared.names.TheConstants.{MAX_SESSIONS};

use crate::opening::Opening;
use crate::prepared_request::PreparedRequest;
use check_laws::is_clear;
use responder_core::{Connection, record_id};
use responder_session::AnswerKey;
use session_keys::{behind_type, byte_at, same_bytes};
use spdm_basis::RecordFrame;
use spdm_grammar::names::message_type::SPDM;
use spdm_grammar::names::{MAX_RECORDS, MAX_SESSIONS, SESSION_PLACES};

/// The keys of answers that were given, under which a refused answer may still open: to the last record of each
/// session, and to the last END_SESSION. Fixed size; never allocates.
#[derive(Drop)]
pub struct AnswerKeys {
    // By the RspSessionIDs from 1 to 4.
    last: [Option<AnswerKey>; SESSION_PLACES],
    ended: Option<AnswerKey>,
}

/// Whether a record opens under a key. What `room` holds before and after does not matter.
pub(crate) fn opens_by(key: &AnswerKey, sealed: &[u8], room: &mut RecordFrame) -> bool
    ensures { (choice : Choice) (p : Purpose) (number : ℕ) (id : List ℕ)
        → IsAnswerKey key.now choice p number id
        → result ≡ is_none (record_fault choice p number id sealed.now) }
{
    key.open(sealed, room).is_ok()
}

// The session id before a record.
fn first_bytes(sealed: &[u8]) -> &[u8]
    ensures { result.now ≡ take 4 sealed.now }
{
    if sealed.len() <= 4 {
        sealed
    } else {
        sealed.split_at(4).0
    }
}

// Whether a record opens as the next answer of the session that `named`, a record too, names.
fn opens_next(connection: &Connection, named: &[u8], sealed: &[u8], room: &mut RecordFrame) -> bool
    ensures { (r : RspSetup) (h : History) → connected.StandsFor connection.now r h
        → messages_of h < 2 ^ 64
        → result ≡ opens_next r (session_of (id_in_record named.now) h) sealed.now }
{
    let Some(view) = connection.view(record_id(named).rsp) else {
        return false;
    };
    if view.response_next >= MAX_RECORDS {
        return false;
    }
    match connection.next_answer_key(named) {
        Some(key) => opens_by(&key, sealed, room),
        None => false,
    }
}

// The key of the answer to a record that comes next, had before that is handed in; its inner message is written in
// place of what `inner` holds. None where the record is not taken. Fewer than 2^64 - 1 messages came.
fn taken_key(connection: &Connection, request: &[u8], inner: &mut RecordFrame) -> Option<AnswerKey>
    ensures key { (r : RspSetup) (h : History) → connected.StandsFor connection.now r h
        → messages_of h < 2 ^ 64 - 1 → IsComingKey r h (record_body request.now) result }
    ensures inner { (r : RspSetup) (h : History) → connected.StandsFor connection.now r h
        → messages_of h < 2 ^ 64 - 1 → IfSome result (λ own. inner.new
        ≡ opened r.psk (session_of (id_in_record request.now) h) request.now) }
{
    if connection.repeats_ended(request) {
        return None;
    }
    if connection.repeats_last(request) {
        return None;
    }
    connection.answer_key(request, inner)
}

/// The key of the answer to a body that comes next, had before that is handed in: none where it is no record that is
/// taken. Fewer than 2^64 - 1 messages came.
pub fn coming_key(connection: &Connection, body: &[u8], room: &mut RecordFrame) -> Option<AnswerKey>
    ensures { (r : RspSetup) (h : History) → connected.StandsFor connection.now r h
        → messages_of h < 2 ^ 64 - 1 → IsComingKey r h body.now result }
{
    if byte_at(body, 0) == SPDM {
        return None;
    }
    taken_key(connection, behind_type(body), room)
}

/// What is known of the next record before it is handed in. Requires fewer than 2^64 - 1 received messages.
pub(crate) fn prepare_record(connection: &Connection, request: &[u8], coming: &mut PreparedRequest)
    ensures { (r : RspSetup) (h : History) → connected.StandsFor connection.now r h
        → messages_of h < 2 ^ 64 - 1 → IsComing coming.new r h (record_body request.now) }
{
    coming.key = taken_key(connection, request, &mut coming.inner);
}

/// The same of a body.
pub fn prepare(connection: &Connection, body: &[u8], coming: &mut PreparedRequest)
    ensures { (r : RspSetup) (h : History) → connected.StandsFor connection.now r h
        → messages_of h < 2 ^ 64 - 1 → IsComing coming.new r h body.now }
{
    if byte_at(body, 0) == SPDM {
        coming.key = None;
        return;
    }
    prepare_record(connection, behind_type(body), coming);
}

impl AnswerKeys {
    ghost use Rattle.std.specs.Prelude.{◌≡◌, ◌≢◌, ◌≤◌, ◌<◌, ◌-◌, ◌^◌, ◌==◌, ◌||◌, ℕ, List, [], None, Some, true, is_some, drop, slice_index, MatchOption};
    ghost use Rattle.responder_core.specs.Connected as connected;
    ghost use Rattle.responder_machine.specs.Answer.{Free};
    ghost use Rattle.responder_machine.specs.BoundLaws.{messages_of};
    ghost use Rattle.responder_machine.specs.History.{History, ended_of};
    ghost use Rattle.responder_machine.specs.May.{on_body, with_dropped};
    ghost use Rattle.responder_machine.specs.Responder.{after, repeats};
    ghost use Rattle.responder_machine.specs.Session.{Events, id_in_record, last_of, session_of};
    ghost use Rattle.responder_machine.specs.Setup.{RspSetup};
    ghost use Rattle.spdm_machine.specs.Bodies.{record_body};
    ghost use Rattle.spdm_machine.specs.Keys.{Draw};
    ghost use Rattle.check_responder.specs.AnswerKeys.{IsComing, IsComingKey, IsEndedKey, IsLastKey, StandFor, last_key};
    ghost use Rattle.check_responder.specs.Opening.{IsOpening};
    ghost use Rattle.capture_machine.specs.Opening.{opens_again, opens_answering, opens_ended, opens_in_session, opens_next};

    /// Where no answer was given yet.
    pub fn new() -> AnswerKeys
        ensures { (r : RspSetup) → StandFor result r [] }
    {
        AnswerKeys {
            last: [None, None, None, None],
            ended: None,
        }
    }

    // The key of the answer to the last record that the session with this RspSessionID took.
    fn last(&self, id: u16) -> Option<&AnswerKey>
        ensures { MatchOption result (last_key self.now id ≡ None)
            (λ key. last_key self.now id ≡ Some key.now) }
    {
        if id == 0 || id > MAX_SESSIONS as u16 {
            return None;
        }
        self.last[usize::from(id) - 1].as_ref()
    }

    // Whether a record opens as the answer to the last one that the session with this RspSessionID took, which took
    // one.
    fn opens_again(&self, id: u16, sealed: &[u8], room: &mut RecordFrame) -> bool
        ensures { (r : RspSetup) (s : Events) → IsLastKey r s (last_key self.now id)
            → is_some (last_of s) ≡ true → result ≡ opens_again r s sealed.now }
    {
        match self.last(id) {
            Some(key) => opens_by(key, sealed, room),
            None => false,
        }
    }

    // Whether a record opens as the answer to the last END_SESSION, which was taken.
    fn opens_ended(&self, sealed: &[u8], room: &mut RecordFrame) -> bool
        ensures { (r : RspSetup) (h : History) → IsEndedKey r h self.now.ended
            → is_some (ended_of h) ≡ true → result ≡ opens_ended r h sealed.now }
    {
        match &self.ended {
            Some(key) => opens_by(key, sealed, room),
            None => false,
        }
    }

    // Whether a record opens as the answer to one that came again, or as the next one of its session.
    fn opens_repeated(
        &self,
        connection: &Connection,
        request: &[u8],
        sealed: &[u8],
        room: &mut RecordFrame,
    ) -> bool
        ensures { (r : RspSetup) (h : History) → connected.StandsFor connection.now r h
            → messages_of h < 2 ^ 64 - 1 → StandFor self.now r h
            → repeats (last_of (session_of (id_in_record request.now) h)) request.now ≡ true
            → result ≡ (opens_again r (session_of (id_in_record request.now) h) sealed.now
            || opens_next r (session_of (id_in_record request.now) h) sealed.now) }
    {
        self.opens_again(record_id(request).rsp, sealed, room)
            || opens_next(connection, request, sealed, room)
    }

    // Whether a record opens as an answer to another one with its session id, of which this is known; where that one
    // is taken, the key kept of it decides.
    fn opens_in_session(
        &self,
        connection: &Connection,
        request: &[u8],
        coming: &PreparedRequest,
        sealed: &[u8],
        room: &mut RecordFrame,
    ) -> Opening
        ensures { (r : RspSetup) (h : History) → connected.StandsFor connection.now r h
            → messages_of h < 2 ^ 64 - 1 → StandFor self.now r h
            → IsComing coming.now r h (record_body request.now)
            → IsOpening coming.now sealed.now result
            (opens_in_session r h (session_of (id_in_record request.now) h) request.now sealed.now) }
    {
        if connection.repeats_ended(request) {
            let opens = self.opens_ended(sealed, room);
            return Opening::Told(opens);
        }
        if connection.repeats_last(request) {
            let opens = self.opens_repeated(connection, request, sealed, room);
            return Opening::Told(opens);
        }
        match &coming.key {
            Some(_) => Opening::ByKey,
            None => {
                let opens = opens_next(connection, request, sealed, room);
                Opening::Told(opens)
            }
        }
    }

    /// Whether a record that is no right answer to a request, a clear one or another record, opens at least; this is
    /// known of the request. Not to be asked where the request is a record that is taken, with the same session id: the
    /// key of its answer then decides. `room` is scratch space. Requires fewer than 2^64 - 1 received messages.
    pub fn opens(
        &self,
        connection: &Connection,
        body: &[u8],
        coming: &PreparedRequest,
        sealed: &[u8],
        room: &mut RecordFrame,
    ) -> Opening
        ensures { (r : RspSetup) (h : History) → connected.StandsFor connection.now r h
            → messages_of h < 2 ^ 64 - 1 → StandFor self.now r h → IsComing coming.now r h body.now
            → IsOpening coming.now sealed.now result
            (opens_answering r h (slice_index body.now 0 == SPDM) (drop 1 body.now) sealed.now) }
    {
        if is_clear(body) {
            let opens = opens_next(connection, sealed, sealed, room);
            return Opening::Told(opens);
        }
        let request = behind_type(body);
        if !same_bytes(first_bytes(request), first_bytes(sealed)) {
            let opens = opens_next(connection, sealed, sealed, room);
            return Opening::Told(opens);
        }
        self.opens_in_session(connection, request, coming, sealed, room)
    }

    // Keeps a key for a RspSessionID from 1 to 4.
    fn put(&mut self, id: u16, key: AnswerKey)
        ensures own { 1 ≤ id → id ≤ MAX_SESSIONS → last_key self.new id ≡ Some key }
        ensures others { (i : ℕ) → i ≢ id → last_key self.new i ≡ last_key self.old i }
        ensures ended { self.new.ended ≡ self.old.ended }
    {
        if id >= 1 && id <= MAX_SESSIONS as u16 {
            self.last[usize::from(id) - 1] = Some(key);
        }
    }

    /// A body was handed to the connection, with the key of the answer to it, and sessions may have been dropped
    /// before: what is kept is that of the history after it.
    pub fn follow(&mut self, connection: &Connection, body: &[u8], key: Option<AnswerKey>)
        ensures { (r : RspSetup) (h : History) (ids : List ℕ) (tag : ℕ) (f : Free) (d : Draw)
            → StandFor self.old r h → IsComingKey r h body.now key
            → connected.StandsFor connection.now r (after (with_dropped h ids)
            (on_body r (with_dropped h ids) tag body.now f d))
            → StandFor self.new r (after (with_dropped h ids)
            (on_body r (with_dropped h ids) tag body.now f d)) }
    {
        let Some(key) = key else {
            return;
        };
        let request = behind_type(body);
        if connection.repeats_ended(request) {
            self.ended = Some(key);
            return;
        }
        if connection.repeats_last(request) {
            self.put(record_id(request).rsp, key);
        }
    }
}
