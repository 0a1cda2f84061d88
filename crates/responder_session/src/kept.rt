ghost use Rattle.std.specs.Prelude.{◌≡◌, ◌<◌, ◌+◌, ◌-◌, ◌^◌};
ghost use Rattle.key_schedule.specs.Purpose.{Purpose};
ghost use Rattle.session_keys.specs.Keys.{IsKeyOf};
ghost use Rattle.spdm_grammar.specs.declared.messages.choice.Choice.{Choice};
ghost use Rattle.spdm_grammar.specs.declared.names.TheConstants.{MAX_PADDING, MAX_RECORDS};
ghost use Rattle.secured_record.specs.declared.TheConstants.{MAX_RECORD_SIZE};

use crate::answers::write_inner;
use crate::last::LastRecord;
use crate::number::NextNumber;
use key_schedule::AppKeys;
use responder_rules::{Place, Where};
use secured_record::{RecordFault, RecordKey};
use session_keys::{Handshake, SessionTerms, open_record, seal_record};
use spdm_basis::{HashBytes, RecordFrame, SessionId};
use spdm_grammar::{Phase, SessionView, Stage};

// What a session keeps in every stage: the keys with the numbers of their next records, how many application messages
// were taken, the hash of T1 or T2, the id, the terms, and the last record taken.
#[derive(Drop)]
pub struct Kept {
    pub request: RecordKey,
    pub response: RecordKey,
    pub request_next: NextNumber,
    pub response_next: NextNumber,
    pub taken: u64,
    pub hash: HashBytes,
    pub id: SessionId,
    pub terms: SessionTerms,
    pub last: LastRecord,
}

// The same hash.
fn copy_of(hash: &HashBytes) -> HashBytes
    ensures { result ≡ hash.now }
{
    hash.clone().unwrap()
}

// Steps to the next key, where epochs are left.
pub fn update(key: &mut RecordKey)
    ensures { key.old.epoch < 2 ^ 64 - 1 → (choice : Choice) (p : Purpose)
        → IsKeyOf key.old choice p → IsKeyOf key.new choice (record p { epoch = p.epoch + 1 }) }
{
    if key.epoch() == u64::MAX {
        return;
    }
    key.update();
}

impl Kept {
    ghost use Rattle.std.specs.Prelude.{◌≡◌, ◌≤◌, ◌<◌, ◌+◌, ◌-◌, ◌∷◌, ◌^◌, ◌==◌, ◌||◌, ℕ, List, None, Some, false, OnOk, MatchResult, length};
    ghost use Rattle.key_schedule.specs.Purpose.{Purpose, application_record};
    ghost use Rattle.key_schedule.specs.declared.direction.Direction.TheVariants.{Request, Response};
    ghost use Rattle.responder_rules.specs.Place.{IsPlace};
    ghost use Rattle.responder_machine.specs.Heard.{view_of};
    ghost use Rattle.responder_machine.specs.Place.{session_place};
    ghost use Rattle.responder_machine.specs.Records.{opening_fault, opened, reply_record};
    ghost use Rattle.responder_machine.specs.Refusal.{has_pending};
    ghost use Rattle.responder_machine.specs.Responder.{inner_reply};
    ghost use Rattle.responder_machine.specs.Session.{Events, stage_of, t1_of, taken_of};
    ghost use Rattle.responder_machine.specs.Turn.{Turn, updates};
    ghost use Rattle.session_keys.specs.Handshake.{IsHandshakeOf};
    ghost use Rattle.session_keys.specs.Keys.{IsKeyOf};
    ghost use Rattle.session_keys.specs.Terms.{AreTermsOf};
    ghost use Rattle.spdm_basis.specs.SessionIdBytes.{session_id_bytes};
    ghost use Rattle.spdm_grammar.specs.declared.messages.choice.Choice.{Choice};
    ghost use Rattle.spdm_grammar.specs.declared.names.TheConstants.{MAX_MESSAGE_SIZE};
    ghost use Rattle.spdm_machine.specs.Keys.{sealed_of};
    ghost use Rattle.spdm_machine.specs.Sessions.{id_in_exchange};
    ghost use Rattle.spdm_machine.specs.Terms.{terms_of};
    ghost use Rattle.transcript.specs.Transcripts.{Negotiation};
    ghost use Rattle.responder_session.specs.Exchange.{begun};
    ghost use Rattle.responder_session.specs.Kept.{Keeps, kept_record};

    // What is kept of a session in its handshake, to which these halves of its id were given.
    pub fn begin(handshake: &Handshake, terms: SessionTerms, rsp_id: u16) -> Kept
        ensures { (psk : List ℕ) (n : Negotiation) (exchange answer : List ℕ)
            → AreTermsOf terms n exchange → rsp_id ≡ id_in_exchange answer
            → IsHandshakeOf handshake.now (terms_of n).choice psk
            (t1_of (begun n exchange answer)) → Keeps result psk (begun n exchange answer) }
    {
        Kept {
            request: handshake.request_key(),
            response: handshake.response_key(),
            request_next: NextNumber::first(),
            response_next: NextNumber::first(),
            taken: 0,
            hash: copy_of(&handshake.th1),
            id: SessionId {
                req: terms.req_id,
                rsp: rsp_id,
            },
            terms,
            last: LastRecord::none(),
        }
    }

    // The handshake is over: records go under these first keys, with the hash of T2.
    pub fn past_handshake(&mut self, keys: AppKeys, hash: HashBytes)
        ensures { self.new ≡ record self.old {
          request = keys.request;
          response = keys.response;
          request_next = 0;
          response_next = 0;
          hash = hash;
        } }
    {
        self.request = RecordKey::new(keys.request);
        self.response = RecordKey::new(keys.response);
        self.request_next = NextNumber::first();
        self.response_next = NextNumber::first();
        self.hash = hash;
    }

    // Whether a key has sealed as many records as it may.
    fn is_spent(&self) -> bool
        ensures value { result ≡ (self.now.request_next == MAX_RECORDS
            || self.now.response_next == MAX_RECORDS) }
        ensures request_few { result ≡ false → self.now.request_next < MAX_RECORDS }
        ensures response_few { result ≡ false → self.now.response_next < MAX_RECORDS }
    {
        self.request_next.is_spent() || self.response_next.is_spent()
    }

    // Opens the next record, and writes its inner message.
    pub fn open(&self, sealed: &[u8], out: &mut RecordFrame) -> Result<(), RecordFault>
        ensures fault { (psk : List ℕ) (s : Events) → Keeps self.now psk s → MatchResult result
            (λ _. opening_fault psk s sealed.now ≡ None)
            (λ e. opening_fault psk s sealed.now ≡ Some e) }
        ensures inner { (psk : List ℕ) (s : Events) → Keeps self.now psk s
            → OnOk result (out.new ≡ opened psk s sealed.now) }
        ensures fits { OnOk result (length sealed.now ≤ MAX_RECORD_SIZE) }
        ensures request_few { OnOk result (self.now.request_next < MAX_RECORDS) }
        ensures response_few { OnOk result (self.now.response_next < MAX_RECORDS) }
    {
        if self.is_spent() {
            return Err(RecordFault::KeySpent);
        }
        let number = self.request_next.number() as u16;
        open_record(&self.request, self.id, number, sealed, out)
    }

    // What the rules for requests go by, in a stage, with a large response pending or not.
    pub fn place(&self, stage: Stage, pending: bool) -> Place
        ensures { (psk : List ℕ) (s : Events) → Keeps self.now psk s → stage ≡ stage_of s
            → pending ≡ has_pending (session_place s) → IsPlace result (session_place s) }
    {
        Place {
            at: Where::InSession,
            phase: Phase::Negotiated,
            stage,
            choice: self.terms.choice,
            common: self.terms.common,
            pending,
        }
    }

    // Seals the inner message of a type that answers a record, under the standing key; both are counted and kept. What
    // `inner` holds does not matter.
    pub fn reply(
        &mut self,
        sealed: &[u8],
        kind: u8,
        message: &[u8],
        pad: &[u8],
        inner: &mut RecordFrame,
    )
        requires request_few { self.old.request_next < MAX_RECORDS }
        requires response_few { self.old.response_next < MAX_RECORDS }
        requires sealed { length sealed.now ≤ MAX_RECORD_SIZE }
        requires message { length message.now ≤ MAX_MESSAGE_SIZE }
        requires pad { length pad.now ≤ MAX_PADDING }
        ensures key { (choice : Choice) (p : Purpose) → IsKeyOf self.old.response choice p
            → kept_record self.new.last ≡ Some (record {
              sealed = sealed.now;
              reply = sealed_of choice p self.old.response_next
                  (session_id_bytes self.old.id.req self.old.id.rsp)
                  (kind ∷ message.now) pad.now;
            }) }
        ensures last { (psk : List ℕ) (s : Events) (t : Turn) → Keeps self.old psk s
            → updates 2 t ≡ false → inner_reply t ≡ kind ∷ message.now
            → kept_record self.new.last ≡ Some (record {
              sealed = sealed.now;
              reply = reply_record psk s t (inner_reply t) pad.now;
            }) }
        ensures rest { self.new ≡ record self.old {
          request_next = self.old.request_next + 1;
          response_next = self.old.response_next + 1;
          last = self.new.last;
        } }
    {
        write_inner(kind, message, inner);
        let number = self.response_next.number() as u16;
        let reply = &mut self.last.reply;
        seal_record(
            &self.response,
            self.id,
            number,
            inner.as_slice(),
            pad,
            reply,
        );
        self.last.keep(sealed);
        self.request_next.advance();
        self.response_next.advance();
    }

    // Goes on to the next key of requests, whose numbers begin anew.
    pub fn rekey_requests(&mut self)
        ensures key { self.old.request.epoch < 2 ^ 64 - 1 → (choice : Choice) (p : Purpose)
            → IsKeyOf self.old.request choice p
            → IsKeyOf self.new.request choice (record p { epoch = p.epoch + 1 }) }
        ensures rest { self.new ≡ record self.old {
          request = self.new.request;
          request_next = 0;
        } }
    {
        update(&mut self.request);
        self.request_next = NextNumber::first();
    }

    // Goes on to the next key of responses, whose numbers begin anew.
    pub fn rekey_responses(&mut self)
        ensures key { self.old.response.epoch < 2 ^ 64 - 1 → (choice : Choice) (p : Purpose)
            → IsKeyOf self.old.response choice p
            → IsKeyOf self.new.response choice (record p { epoch = p.epoch + 1 }) }
        ensures rest { self.new ≡ record self.old {
          response = self.new.response;
          response_next = 0;
        } }
    {
        update(&mut self.response);
        self.response_next = NextNumber::first();
    }

    // A view of the session, in its stage.
    pub fn view(&self, stage: Stage) -> SessionView
        ensures request_epoch { result.request_epoch ≡ self.now.request.epoch }
        ensures response_epoch { result.response_epoch ≡ self.now.response.epoch }
        ensures shown { (psk : List ℕ) (s : Events) → Keeps self.now psk s → stage ≡ stage_of s
            → taken_of s < 2 ^ 64 → result ≡ view_of s }
    {
        SessionView {
            id: self.id,
            stage,
            request_epoch: self.request.epoch(),
            response_epoch: self.response.epoch(),
            request_next: self.request_next.number(),
            response_next: self.response_next.number(),
            taken: self.taken,
            hash: copy_of(&self.hash),
            choice: self.terms.choice,
        }
    }
}
