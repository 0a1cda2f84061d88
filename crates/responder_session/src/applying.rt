ghost use Rattle.std.specs.Prelude.{◌≡◌, ◌≤◌, length};
ghost use Rattle.spdm_grammar.specs.declared.names.TheConstants.{MAX_APP_DATA_LEN, MAX_PADDING, MAX_RECORDS};
ghost use Rattle.secured_record.specs.declared.TheConstants.{MAX_RECORD_SIZE};

use crate::request_effect::RequestEffect;
use crate::{RspAct, RspSession};
use responder_rules::write_large_response;
use session_keys::{APP_DATA, byte_at};
use spdm_basis::{Buffer, Frame, RecordFrame};
use spdm_grammar::Stage;
use spdm_grammar::names::MAX_APP_DATA_LEN;
use spdm_grammar::names::message_type::SPDM;

// A record that opened, and the padding of its answer.
#[derive(Clone, Copy)]
pub struct Opened<'a> {
    pub sealed: &'a [u8],
    pub message: &'a [u8],
    pub pad: &'a [u8],
}

// Overwrites a buffer with application data of at most 1,024 bytes.
fn hold(bytes: &[u8], out: &mut Buffer<MAX_APP_DATA_LEN>)
    ensures { length bytes.now ≤ MAX_APP_DATA_LEN → out.new ≡ bytes.now }
{
    let _ = out.replace(bytes);
}

impl RspSession {
    ghost use Rattle.std.specs.Prelude.{◌≡◌, ◌≤◌, ◌<◌, ◌+◌, ◌%◌, ◌^◌, if◌then◌else◌, ℕ, List, true, length};
    ghost use Rattle.responder_machine.specs.Answer.{Free};
    ghost use Rattle.responder_machine.specs.Handling.{error_bytes, refused_turn};
    ghost use Rattle.responder_machine.specs.Place.{session_place};
    ghost use Rattle.responder_machine.specs.Records.{reply_record};
    ghost use Rattle.responder_machine.specs.Responder.{data_turn, inner_reply};
    ghost use Rattle.responder_machine.specs.Session.{Events, id_bytes, session_terms, stage_of};
    ghost use Rattle.responder_machine.specs.Setup.{RspSetup};
    ghost use Rattle.responder_machine.specs.SizeLaws.{HasSizes};
    ghost use Rattle.spdm_grammar.specs.Message.{RequestMessage};
    ghost use Rattle.spdm_grammar.specs.Message.RequestMessage.{GetMeasurements, EndSession, ChunkGet, PskFinish};
    ghost use Rattle.spdm_grammar.specs.Message.ResponseMessage.{KeyUpdateAck, PskFinishRsp};
    ghost use Rattle.spdm_grammar.specs.Responses.{canonical_response};
    ghost use Rattle.spdm_grammar.specs.declared.messages.error_code.ErrorCode.{ErrorCode};
    ghost use Rattle.spdm_grammar.specs.declared.names.TheConstants.{MAX_MESSAGE_SIZE};
    ghost use Rattle.spdm_grammar.specs.declared.told.phase.Stage.TheVariants.{Handshake, Open, Verifying};
    ghost use Rattle.responder_session.specs.RequestEffects.{IsFit, is_quiet, is_whole, large_turn, turn_for};
    ghost use Rattle.responder_session.specs.Session.{StandsFor, IsEnded};
    ghost use Rattle.responder_session.specs.Took.{IsMoved};
    ghost use Rattle.responder_session.specs.Turns.{answered_turn, heard_by};
    ghost use Rattle.responder_session.specs.Updates.{HasEpochs, update_turn};

    // A record whose message is refused, with this ERROR.
    fn refuse(&mut self, opened: &Opened<'_>, answer: &[u8], inner: &mut RecordFrame)
        requires request_few { self.old.kept.request_next < MAX_RECORDS }
        requires response_few { self.old.kept.response_next < MAX_RECORDS }
        requires sealed { length opened.now.sealed.now ≤ MAX_RECORD_SIZE }
        requires answer { length answer.now ≤ MAX_MESSAGE_SIZE }
        requires pad { length opened.now.pad.now ≤ MAX_PADDING }
        ensures { (r : RspSetup) (s : Events) (f : Free) (code : ErrorCode)
            → StandsFor self.old r.psk s
            → answer.now ≡ error_bytes r (session_place s) opened.now.message.now f code
            → StandsFor self.new r.psk (heard_by r.psk s opened.now.sealed.now
            (refused_turn r (session_place s) opened.now.message.now f code) opened.now.pad.now) }
    {
        self.kept
            .reply(opened.sealed, SPDM, answer, opened.pad, inner);
    }

    // A record of application data, answered by application data.
    fn take_data(&mut self, opened: &Opened<'_>, reply: &[u8], inner: &mut RecordFrame)
        requires request_few { self.old.kept.request_next < MAX_RECORDS }
        requires response_few { self.old.kept.response_next < MAX_RECORDS }
        requires sealed { length opened.now.sealed.now ≤ MAX_RECORD_SIZE }
        requires reply { length reply.now ≤ MAX_MESSAGE_SIZE }
        requires pad { length opened.now.pad.now ≤ MAX_PADDING }
        ensures { (psk : List ℕ) (s : Events) (f : Free) → StandsFor self.old psk s
            → stage_of s ≡ Open → f.reply ≡ reply.now → length opened.now.message.now ≤ MAX_APP_DATA_LEN
            → StandsFor self.new psk (heard_by psk s opened.now.sealed.now
            (data_turn f opened.now.message.now) opened.now.pad.now) }
    {
        self.kept
            .reply(opened.sealed, APP_DATA, reply, opened.pad, inner);
        self.kept.taken = self.kept.taken.wrapping_add(1);
        self.large.clear();
        hold(opened.message, &mut self.bytes);
    }

    // A record of a request that leaves the keys and is answered at once.
    fn answer(&mut self, opened: &Opened<'_>, answer: &[u8], inner: &mut RecordFrame)
        requires request_few { self.old.kept.request_next < MAX_RECORDS }
        requires response_few { self.old.kept.response_next < MAX_RECORDS }
        requires sealed { length opened.now.sealed.now ≤ MAX_RECORD_SIZE }
        requires answer { length answer.now ≤ MAX_MESSAGE_SIZE }
        requires pad { length opened.now.pad.now ≤ MAX_PADDING }
        ensures { (psk : List ℕ) (s : Events) (asked : RequestMessage)
            → StandsFor self.old psk s → is_quiet asked ≡ true → StandsFor self.new psk
            (heard_by psk s opened.now.sealed.now
            (answered_turn opened.now.message.now asked answer.now) opened.now.pad.now) }
    {
        self.kept
            .reply(opened.sealed, SPDM, answer, opened.pad, inner);
        self.large.clear();
    }

    // A record of GET_MEASUREMENTS, whose answer is sent in chunks under this handle.
    fn answer_large(
        &mut self,
        opened: &Opened<'_>,
        answer: &mut Frame,
        handle: u8,
        inner: &mut RecordFrame,
    )
        requires request_few { self.old.kept.request_next < MAX_RECORDS }
        requires response_few { self.old.kept.response_next < MAX_RECORDS }
        requires sealed { length opened.now.sealed.now ≤ MAX_RECORD_SIZE }
        requires pad { length opened.now.pad.now ≤ MAX_PADDING }
        ensures { (r : RspSetup) (s : Events) (op : ℕ)
            → StandsFor self.old r.psk s → HasSizes r (session_terms s).common
            → (session_terms s).common.to_requester.transfer < length answer.old
            → StandsFor self.new r.psk (heard_by r.psk s opened.now.sealed.now
            (large_turn opened.now.message.now (GetMeasurements op) answer.old handle)
            opened.now.pad.now) }
    {
        let transfer = self.kept.terms.common.to_requester.transfer;
        self.large.begin(answer.as_slice(), transfer, handle);
        write_large_response(handle, answer);
        let answer = answer.as_slice();
        self.kept
            .reply(opened.sealed, SPDM, answer, opened.pad, inner);
    }

    // A record of CHUNK_GET, answered by the next chunk.
    fn give_chunk(&mut self, opened: &Opened<'_>, answer: &[u8], inner: &mut RecordFrame)
        requires request_few { self.old.kept.request_next < MAX_RECORDS }
        requires response_few { self.old.kept.response_next < MAX_RECORDS }
        requires sealed { length opened.now.sealed.now ≤ MAX_RECORD_SIZE }
        requires answer { length answer.now ≤ MAX_MESSAGE_SIZE }
        requires pad { length opened.now.pad.now ≤ MAX_PADDING }
        ensures { (psk : List ℕ) (s : Events) (handle number : ℕ)
            → StandsFor self.old psk s → StandsFor self.new psk
            (heard_by psk s opened.now.sealed.now
            (answered_turn opened.now.message.now (ChunkGet handle number) answer.now)
            opened.now.pad.now) }
    {
        self.kept
            .reply(opened.sealed, SPDM, answer, opened.pad, inner);
        self.large.advance();
    }

    // A record of UpdateKey.
    fn update_key(&mut self, opened: &Opened<'_>, answer: &[u8], inner: &mut RecordFrame)
        requires request_few { self.old.kept.request_next < MAX_RECORDS }
        requires response_few { self.old.kept.response_next < MAX_RECORDS }
        requires sealed { length opened.now.sealed.now ≤ MAX_RECORD_SIZE }
        requires answer { length answer.now ≤ MAX_MESSAGE_SIZE }
        requires pad { length opened.now.pad.now ≤ MAX_PADDING }
        ensures { (psk : List ℕ) (s : Events) (tag : ℕ) → StandsFor self.old psk s
            → stage_of s ≡ Open → HasEpochs s
            → answer.now ≡ canonical_response (KeyUpdateAck 1 tag)
            → StandsFor self.new psk (heard_by psk s opened.now.sealed.now
            (update_turn opened.now.message.now 1 tag) opened.now.pad.now) }
    {
        self.kept
            .reply(opened.sealed, SPDM, answer, opened.pad, inner);
        self.kept.rekey_requests();
        self.large.clear();
        self.stage = Some(Stage::Verifying);
    }

    // A record of UpdateAllKeys, which is answered under the new key.
    fn update_all(&mut self, opened: &Opened<'_>, answer: &[u8], inner: &mut RecordFrame)
        requires request_few { self.old.kept.request_next < MAX_RECORDS }
        requires sealed { length opened.now.sealed.now ≤ MAX_RECORD_SIZE }
        requires answer { length answer.now ≤ MAX_MESSAGE_SIZE }
        requires pad { length opened.now.pad.now ≤ MAX_PADDING }
        ensures { (psk : List ℕ) (s : Events) (tag : ℕ) → StandsFor self.old psk s
            → stage_of s ≡ Open → HasEpochs s
            → answer.now ≡ canonical_response (KeyUpdateAck 2 tag)
            → StandsFor self.new psk (heard_by psk s opened.now.sealed.now
            (update_turn opened.now.message.now 2 tag) opened.now.pad.now) }
    {
        self.kept.rekey_responses();
        self.kept
            .reply(opened.sealed, SPDM, answer, opened.pad, inner);
        self.kept.rekey_requests();
        self.large.clear();
        self.stage = Some(Stage::Verifying);
    }

    // A record of VerifyNewKey.
    fn verify(&mut self, opened: &Opened<'_>, answer: &[u8], inner: &mut RecordFrame)
        requires request_few { self.old.kept.request_next < MAX_RECORDS }
        requires response_few { self.old.kept.response_next < MAX_RECORDS }
        requires sealed { length opened.now.sealed.now ≤ MAX_RECORD_SIZE }
        requires answer { length answer.now ≤ MAX_MESSAGE_SIZE }
        requires pad { length opened.now.pad.now ≤ MAX_PADDING }
        ensures { (psk : List ℕ) (s : Events) (tag : ℕ) → StandsFor self.old psk s
            → stage_of s ≡ Verifying → answer.now ≡ canonical_response (KeyUpdateAck 3 tag)
            → StandsFor self.new psk (heard_by psk s opened.now.sealed.now
            (update_turn opened.now.message.now 3 tag) opened.now.pad.now) }
    {
        self.kept
            .reply(opened.sealed, SPDM, answer, opened.pad, inner);
        self.large.clear();
        self.stage = Some(Stage::Open);
    }

    // A record of PSK_FINISH.
    fn open(&mut self, opened: &Opened<'_>, answer: &[u8], inner: &mut RecordFrame)
        requires request_few { self.old.kept.request_next < MAX_RECORDS }
        requires response_few { self.old.kept.response_next < MAX_RECORDS }
        requires sealed { length opened.now.sealed.now ≤ MAX_RECORD_SIZE }
        requires answer { length answer.now ≤ MAX_MESSAGE_SIZE }
        requires pad { length opened.now.pad.now ≤ MAX_PADDING }
        ensures { (psk : List ℕ) (s : Events) (verify : List ℕ) → StandsFor self.old psk s
            → stage_of s ≡ Handshake → answer.now ≡ canonical_response PskFinishRsp
            → StandsFor self.new psk (heard_by psk s opened.now.sealed.now
            (answered_turn opened.now.message.now (PskFinish verify)
            (canonical_response PskFinishRsp)) opened.now.pad.now) }
    {
        self.kept
            .reply(opened.sealed, SPDM, answer, opened.pad, inner);
        let hash = self.exchange.th2(opened.message, answer);
        let keys = self.exchange.handshake.app_keys(&hash);
        self.kept.past_handshake(keys, hash);
        self.large.clear();
        self.stage = Some(Stage::Open);
    }

    // A record of END_SESSION.
    fn end(&mut self, opened: &Opened<'_>, answer: &[u8], inner: &mut RecordFrame)
        requires request_few { self.old.kept.request_next < MAX_RECORDS }
        requires response_few { self.old.kept.response_next < MAX_RECORDS }
        requires sealed { length opened.now.sealed.now ≤ MAX_RECORD_SIZE }
        requires answer { length answer.now ≤ MAX_MESSAGE_SIZE }
        requires pad { length opened.now.pad.now ≤ MAX_PADDING }
        ensures { (psk : List ℕ) (s : Events) → StandsFor self.old psk s
            → let t = answered_turn opened.now.message.now EndSession answer.now in
            IsEnded self.new (id_bytes s) opened.now.sealed.now
            (reply_record psk s t (inner_reply t) opened.now.pad.now) }
    {
        self.kept
            .reply(opened.sealed, SPDM, answer, opened.pad, inner);
        self.stage = None;
    }

    // A record of which this is judged; what is told.
    pub(crate) fn apply(
        &mut self,
        opened: &Opened<'_>,
        deed: &RequestEffect<'_>,
        answer: &mut Frame,
        inner: &mut RecordFrame,
    ) -> RspAct
        requires request_few { self.old.kept.request_next < MAX_RECORDS }
        requires response_few { self.old.kept.response_next < MAX_RECORDS }
        requires sealed { length opened.now.sealed.now ≤ MAX_RECORD_SIZE }
        requires pad { length opened.now.pad.now ≤ MAX_PADDING }
        ensures { (r : RspSetup) (s : Events) (f : Free) → StandsFor self.old r.psk s
            → HasSizes r (session_terms s).common
            → IsFit r s f opened.now.message.now answer.old deed.now
            → IsMoved r.psk s opened.now.sealed.now
            (turn_for r s f opened.now.message.now answer.old deed.now) opened.now.pad.now
            self.new result }
    {
        match deed {
            RequestEffect::Large { op: _, handle } => {
                self.answer_large(opened, answer, *handle, inner);
                RspAct::Answered(byte_at(opened.message, 1))
            }
            _ => self.apply_whole(opened, deed, answer.as_slice(), inner),
        }
    }

    // The same where the whole answer is sent.
    fn apply_whole(
        &mut self,
        opened: &Opened<'_>,
        deed: &RequestEffect<'_>,
        answer: &[u8],
        inner: &mut RecordFrame,
    ) -> RspAct
        requires request_few { self.old.kept.request_next < MAX_RECORDS }
        requires response_few { self.old.kept.response_next < MAX_RECORDS }
        requires sealed { length opened.now.sealed.now ≤ MAX_RECORD_SIZE }
        requires answer { length answer.now ≤ MAX_MESSAGE_SIZE }
        requires pad { length opened.now.pad.now ≤ MAX_PADDING }
        ensures { (r : RspSetup) (s : Events) (f : Free) → StandsFor self.old r.psk s
            → is_whole deed.now ≡ true
            → IsFit r s f opened.now.message.now answer.now deed.now
            → IsMoved r.psk s opened.now.sealed.now
            (turn_for r s f opened.now.message.now answer.now deed.now) opened.now.pad.now
            self.new result }
    {
        let answered = RspAct::Answered(byte_at(opened.message, 1));
        match deed {
            RequestEffect::Refused(code) => {
                self.refuse(opened, answer, inner);
                RspAct::Refused(code.number())
            }
            RequestEffect::Data => {
                self.take_data(opened, answer, inner);
                RspAct::Data
            }
            RequestEffect::Finished { verify: _ } => {
                self.open(opened, answer, inner);
                answered
            }
            RequestEffect::Alive => {
                self.answer(opened, answer, inner);
                answered
            }
            RequestEffect::Measured { op: _ } => {
                self.answer(opened, answer, inner);
                answered
            }
            RequestEffect::Large { op: _, handle: _ } => answered,
            RequestEffect::Update { all, tag: _ } => {
                self.update(opened, *all, answer, inner);
                answered
            }
            RequestEffect::Verified { tag: _ } => {
                self.verify(opened, answer, inner);
                answered
            }
            RequestEffect::Ended => {
                self.end(opened, answer, inner);
                answered
            }
            RequestEffect::Chunk {
                handle: _,
                number: _,
            } => {
                self.give_chunk(opened, answer, inner);
                answered
            }
        }
    }

    // A record of UpdateAllKeys or UpdateKey.
    fn update(&mut self, opened: &Opened<'_>, all: bool, answer: &[u8], inner: &mut RecordFrame)
        requires request_few { self.old.kept.request_next < MAX_RECORDS }
        requires response_few { self.old.kept.response_next < MAX_RECORDS }
        requires sealed { length opened.now.sealed.now ≤ MAX_RECORD_SIZE }
        requires answer { length answer.now ≤ MAX_MESSAGE_SIZE }
        requires pad { length opened.now.pad.now ≤ MAX_PADDING }
        ensures { (psk : List ℕ) (s : Events) (tag : ℕ) → StandsFor self.old psk s
            → stage_of s ≡ Open → HasEpochs s
            → answer.now ≡ canonical_response (KeyUpdateAck (if all then 2 else 1) tag)
            → StandsFor self.new psk (heard_by psk s opened.now.sealed.now
            (update_turn opened.now.message.now (if all then 2 else 1) tag) opened.now.pad.now) }
    {
        if all {
            self.update_all(opened, answer, inner);
        } else {
            self.update_key(opened, answer, inner);
        }
    }
}
