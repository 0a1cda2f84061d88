ghost use Rattle.std.specs.Prelude.{◌≡◌, ◌<◌, ◌-◌, ◌^◌, Some, if◌then◌else◌};
ghost use Rattle.responder_core.specs.Connected as connected;
ghost use Rattle.responder_machine.specs.BoundLaws.{messages_of};
ghost use Rattle.responder_machine.specs.Setup.{RspSetup};
ghost use Rattle.check_responder.specs.AnswerKeys.{IsComing, StandFor};
ghost use Rattle.check_responder.specs.Opening.{IsReason};
ghost use Rattle.check_laws.specs.Judged.{why_of};
ghost use Rattle.capture_machine.specs.Difference.{reply_why};
ghost use Rattle.capture_machine.specs.Difference.Why.{BadRecord, BadReply};
ghost use Rattle.capture_machine.specs.Rounds.{Dialogue, Round};

use crate::answer_keys::{coming_key, prepare};
use crate::opening::{Opening, opens_so};
use crate::prepared_request::PreparedRequest;
use crate::{AnswerKeys, JudgedResponder};
use check_laws::is_clear;
use responder_core::Connection;
use responder_session::AnswerKey;
use session_keys::behind_type;
use spdm_basis::RecordFrame;
use spdm_grammar::Why;

// Whether an answer that is in turn is in the clear, or a record that opens, as far as it is told before it is judged.
// The body is the request that it answers, which was not handed in yet, and of which this is known. `room` is scratch
// space. Requires fewer than 2^64 - 1 received messages.
fn opening_of(
    keys: &AnswerKeys,
    connection: &Connection,
    body: &[u8],
    coming: &PreparedRequest,
    answer: &[u8],
    room: &mut RecordFrame,
) -> Opening
    ensures { (r : RspSetup) (d : Dialogue) (round : Round)
        → connected.StandsFor connection.now r d.responder → messages_of d.responder < 2 ^ 64 - 1
        → StandFor keys.now r d.responder → round.body ≡ body.now
        → IsComing coming.now r d.responder body.now
        → IsReason r d round coming.now answer.now result }
{
    if is_clear(answer) {
        return Opening::Told(true);
    }
    keys.opens(connection, body, coming, behind_type(answer), room)
}

// Why an answer is refused that is in the clear or opens, or neither.
fn why_by(opens: bool) -> Why
    ensures { why_of result ≡ (if opens then BadReply else BadRecord) }
{
    if opens { Why::BadReply } else { Why::BadRecord }
}

/// Why an answer is refused, by what was determined of it before and what is known of its request. `room` is scratch
/// space.
pub fn reason_for(
    told: Opening,
    coming: &PreparedRequest,
    answer: &[u8],
    room: &mut RecordFrame,
) -> Why
    ensures { (r : RspSetup) (d : Dialogue) (round : Round)
        → IsReason r d round coming.now answer.now told
        → why_of result ≡ reply_why r d answer.now (Some round) }
{
    why_by(opens_so(told, coming, behind_type(answer), room))
}

impl JudgedResponder {
    ghost use Rattle.std.specs.Prelude.{◌≡◌, ◌<◌, ◌-◌, ◌^◌, Some};
    ghost use Rattle.responder_machine.specs.BoundLaws.{messages_of};
    ghost use Rattle.responder_machine.specs.History.{History};
    ghost use Rattle.responder_machine.specs.Setup.{RspSetup};
    ghost use Rattle.check_responder.specs.AnswerKeys.{IsComing, IsComingKey, StandFor};
    ghost use Rattle.check_responder.specs.JudgedResponder.{IsAnswerer};
    ghost use Rattle.check_responder.specs.Opening.{IsReason};
    ghost use Rattle.check_laws.specs.Judged.{why_of};
    ghost use Rattle.capture_machine.specs.Difference.{reply_why};
    ghost use Rattle.capture_machine.specs.Rounds.{Dialogue, Round};

    /// What is known of this request before its answer is judged. Requires fewer than 2^64 - 1 received messages.
    pub fn prepare(&self, body: &[u8], coming: &mut PreparedRequest)
        ensures { (r : RspSetup) (h : History) → IsAnswerer self.now r h
            → messages_of h < 2 ^ 64 - 1 → IsComing coming.new r h body.now }
    {
        prepare(&self.connection, body, coming);
    }

    /// Why an answer to this request, of which this is known, is refused, but for wrong verify data, as far as it can
    /// be told before it is judged: a record is not opened with the key that is known. Requires fewer than 2^64 - 1
    /// received messages.
    pub fn opening_with(
        &mut self,
        keys: &AnswerKeys,
        body: &[u8],
        coming: &PreparedRequest,
        answer: &[u8],
    ) -> Opening
        ensures told { (r : RspSetup) (d : Dialogue) (round : Round)
            → IsAnswerer self.old r d.responder → messages_of d.responder < 2 ^ 64 - 1
            → StandFor keys.now r d.responder → round.body ≡ body.now
            → IsComing coming.now r d.responder body.now
            → IsReason r d round coming.now answer.now result }
        ensures same { self.new.connection ≡ self.old.connection }
    {
        opening_of(
            keys,
            &self.connection,
            body,
            coming,
            answer,
            &mut self.record,
        )
    }

    /// Why an answer to this request is refused, but for wrong verify data: determined before it is judged, where nothing
    /// is known of the request yet. Requires fewer than 2^64 - 1 received messages.
    pub fn reply_why(&mut self, keys: &AnswerKeys, body: &[u8], answer: &[u8]) -> Why
        ensures told { (r : RspSetup) (d : Dialogue) (round : Round)
            → IsAnswerer self.old r d.responder → messages_of d.responder < 2 ^ 64 - 1
            → StandFor keys.now r d.responder → round.body ≡ body.now
            → why_of result ≡ reply_why r d answer.now (Some round) }
        ensures same { self.new.connection ≡ self.old.connection }
    {
        let mut coming = PreparedRequest::new();
        self.prepare(body, &mut coming);
        let told = self.opening_with(keys, body, &coming, answer);
        reason_for(told, &coming, answer, &mut self.record)
    }

    /// The key of the answer to this body, had before it is judged. Requires fewer than 2^64 - 1 received messages.
    pub fn coming_key(&mut self, body: &[u8]) -> Option<AnswerKey>
        ensures key { (r : RspSetup) (h : History) → IsAnswerer self.old r h
            → messages_of h < 2 ^ 64 - 1 → IsComingKey r h body.now result }
        ensures same { self.new.connection ≡ self.old.connection }
    {
        coming_key(&self.connection, body, &mut self.record)
    }
}
