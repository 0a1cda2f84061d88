ghost use Rattle.std.specs.Prelude.{◌≡◌, ◌<◌, ◌+◌, ◌-◌, ◌^◌, if◌then◌else◌, min};
ghost use Rattle.spdm_grammar.specs.declared.names.TheConstants.{MAX_PADDING, MAX_RECORDS};

use crate::ask_fault::AskFault;
use crate::inner::{Inner, read_inner};
use crate::outcome::{Outcome, store_data};
use crate::requests::{operation_of, write_inner_data, write_inner_request};
use crate::session_request::{Awaited, SessionRequest};
use crate::session_told::SessionTold;
use crate::updates::update;
use crate::verdict::{Meaning, Verdict, whole_verdict};
use chunking::{Collected, Collector};
use secured_record::RecordKey;
use session_keys::{SessionTerms, seal_record};
use spdm_basis::{HashBytes, RecordFrame, SessionId};
use spdm_grammar::{BadReply, ChunkView, Request, SessionView, Stage};

// The number of either direction from which on GET_MEASUREMENTS is not asked.
const MOST_MEASURED: u32 = 65_300;

// What a session keeps once it is open: the keys with the numbers of their next records, how many application messages
// were taken, the hash of T2, the id, the terms, and what PSK_EXCHANGE_RSP told. While the answer to an update of all keys is awaited, the key of
// responses is the next one.
#[derive(Drop)]
pub struct Kept {
    pub request: RecordKey,
    pub response: RecordKey,
    pub request_next: u32,
    pub response_next: u32,
    pub taken: u64,
    pub th2: HashBytes,
    pub id: SessionId,
    pub terms: SessionTerms,
    pub told: SessionTold,
}

// The number of a record, which has two bytes.
pub fn record_number(next: u32) -> u16
    ensures { next < MAX_RECORDS → result ≡ next }
{
    next.min(65_535) as u16
}

// The next number of responses after the answer to an update, which is the first one under the next key where that
// updates all keys.
fn next_behind_update(next: u32, all: bool) -> u32
    ensures { result ≡ (if all then 1 else min (next + 1) (2 ^ 32 - 1)) }
{
    if all { 1 } else { next.saturating_add(1) }
}

impl Kept {
    ghost use Rattle.std.specs.Prelude.{◌≡◌, ◌≤◌, ◌<◌, ◌+◌, ◌-◌, ◌^◌, ◌∷◌, ℕ, List, Bool, None, true, false, length};
    ghost use Rattle.chunking.specs.Keeping as keeping;
    ghost use Rattle.requester_machine.specs.Commands.{has_reached, is_spent, lacks};
    ghost use Rattle.requester_machine.specs.History.{Effect};
    ghost use Rattle.requester_machine.specs.History.Effect.{Grants};
    ghost use Rattle.requester_machine.specs.Message.Ask.{AskUpdate};
    ghost use Rattle.requester_machine.specs.Session.{Steps, finishes, is_data, request_next, response_next, response_epoch, session_terms, stage_of, taken_of, updates};
    ghost use Rattle.requester_machine.specs.Sending.{update_tag};
    ghost use Rattle.requester_machine.specs.Session.Step.{Asked, Took};
    ghost use Rattle.requester_machine.specs.Records.{sealed_next};
    ghost use Rattle.requester_machine.specs.Setup.{ReqSetup};
    ghost use Rattle.spdm_machine.specs.Terms.{hash_len};
    ghost use Rattle.requester_machine.specs.Shown.{view_of};
    ghost use Rattle.spdm_grammar.specs.Message.{ChunkMessage, chunk_message};
    ghost use Rattle.psk_session.specs.SessionRequest.{ask_fault, command_of, inner_for, is_long};
    ghost use Rattle.psk_session.specs.Collected.{IsCollected};
    ghost use Rattle.psk_session.specs.Held.{seen_meaning};
    ghost use Rattle.psk_session.specs.Inner.{contents_of};
    ghost use Rattle.psk_session.specs.Verdict.{meaning_of};
    ghost use Rattle.psk_session.specs.Kept.{Keeps};
    ghost use Rattle.psk_session.specs.Waiting.{awaited_by, awaited_epoch};

    // The hash of T2.
    fn hash(&self) -> HashBytes
        ensures { result ≡ self.now.th2 }
    {
        self.th2.clone().unwrap()
    }

    // A view of the session, in its stage and in this epoch of responses.
    pub fn view(&self, stage: Stage, shown: u64) -> SessionView
        ensures value { (psk : List ℕ) (s : Steps) (epoch : ℕ) → Keeps self.now psk s epoch
            → stage ≡ stage_of s → shown ≡ response_epoch s → taken_of s < 2 ^ 64
            → result ≡ view_of s }
        ensures request_epoch { result.request_epoch ≡ self.now.request.epoch }
        ensures response_epoch { result.response_epoch ≡ shown }
    {
        SessionView {
            id: self.id,
            stage,
            request_epoch: self.request.epoch(),
            response_epoch: shown,
            request_next: self.request_next,
            response_next: self.response_next,
            taken: self.taken,
            hash: self.hash(),
            choice: self.terms.choice,
        }
    }

    // Whether a next number has reached this one.
    pub fn has_reached(&self, number: u32) -> bool
        ensures { (psk : List ℕ) (s : Steps) (epoch : ℕ) → Keeps self.now psk s epoch
            → result ≡ has_reached number s }
    {
        number <= self.request_next || number <= self.response_next
    }

    // Whether what it needs was not negotiated.
    fn lacks(&self, ask: &SessionRequest<'_>) -> bool
        ensures { (psk : List ℕ) (s : Steps) (epoch : ℕ) → Keeps self.now psk s epoch
            → result ≡ lacks (session_terms s) (command_of ask.now) }
    {
        match ask {
            SessionRequest::Data(_) | SessionRequest::End => false,
            SessionRequest::Beat => !self.terms.common.heartbeat,
            SessionRequest::UpdateKey | SessionRequest::UpdateAll => !self.terms.common.key_update,
            SessionRequest::Measure { .. } => !(self.terms.common.measure
                && self.terms.choice.measure),
        }
    }

    // Whether a key sealed too many records for it.
    fn is_spent(&self, ask: &SessionRequest<'_>) -> bool
        ensures { (psk : List ℕ) (s : Steps) (epoch : ℕ) → Keeps self.now psk s epoch
            → result ≡ is_spent s (command_of ask.now) }
    {
        match ask {
            SessionRequest::Data(_) | SessionRequest::Beat => self.has_reached(65535),
            SessionRequest::UpdateKey => self.has_reached(65535) || 65534 <= self.response_next,
            SessionRequest::Measure { .. } => self.has_reached(MOST_MEASURED),
            SessionRequest::UpdateAll | SessionRequest::End => false,
        }
    }

    // The fault of an ask.
    #[tactic(auto, unfolding(crate::specs::SessionRequest::ask_fault))]
    pub fn ask_fault(&self, ask: &SessionRequest<'_>) -> Option<AskFault>
        ensures value { (psk : List ℕ) (s : Steps) (epoch : ℕ) → Keeps self.now psk s epoch
            → result ≡ ask_fault s ask.now }
        ensures fits { result ≡ None → is_long ask.now ≡ false }
    {
        if self.lacks(ask) {
            return Some(AskFault::NotNegotiated);
        }
        if self.is_spent(ask) {
            return Some(AskFault::KeySpent);
        }
        if ask.is_long() {
            return Some(AskFault::TooLong);
        }
        None
    }

    // Param2 of KEY_UPDATE.
    pub fn update_tag(&self) -> u8
        ensures { (psk : List ℕ) (s : Steps) (epoch : ℕ) → Keeps self.now psk s epoch
            → result ≡ update_tag s }
    {
        (self.request.epoch() % 256) as u8
    }

    // Writes the inner message that asks it.
    pub fn write_inner(&self, ask: &SessionRequest<'_>, out: &mut RecordFrame)
        requires { is_long ask.now ≡ false }
        ensures value { (psk : List ℕ) (s : Steps) (epoch : ℕ) → Keeps self.now psk s epoch
            → out.new ≡ inner_for s ask.now }
        ensures size { length out.new ≤ 1025 }
    {
        let tag = self.update_tag();
        match ask {
            SessionRequest::Data(bytes) => write_inner_data(bytes, out),
            SessionRequest::Beat => write_inner_request(&Request::Heartbeat, out),
            SessionRequest::UpdateKey => write_inner_request(
                &Request::KeyUpdate {
                    op: operation_of(false),
                    tag,
                },
                out,
            ),
            SessionRequest::UpdateAll => write_inner_request(
                &Request::KeyUpdate {
                    op: operation_of(true),
                    tag,
                },
                out,
            ),
            SessionRequest::Measure { op } => write_inner_request(
                &Request::GetMeasurements { op: *op },
                out,
            ),
            SessionRequest::End => write_inner_request(&Request::EndSession, out),
        }
    }

    // Steps to the key under which the answer to this is: that to an update of all keys is under the next one.
    pub fn use_next_key(&mut self, awaited: Awaited)
        requires { self.old.response.epoch < 2 ^ 64 - 1 }
        ensures { (psk : List ℕ) (s : Steps) (before : List ChunkMessage)
            → Keeps self.old psk s (response_epoch s)
            → Keeps self.new psk s (awaited_epoch s (awaited_by awaited before)) }
    {
        if awaited.is_of_all() {
            update(&mut self.response);
        }
    }

    // Counts one more record that was taken, which held application data or not, and updated no key.
    pub fn count(&mut self, had_data: bool)
        ensures { (psk : List ℕ) (s : Steps) (epoch : ℕ) (sealed inner : List ℕ) (effect : Effect)
            → Keeps self.old psk s epoch → finishes effect ≡ false → updates effect ≡ false
            → had_data ≡ is_data effect → response_next s ≤ 65535
            → Keeps self.new psk (Took sealed inner effect ∷ s) epoch }
    {
        self.response_next = self.response_next.saturating_add(1);
        if had_data {
            self.taken = self.taken.saturating_add(1);
        }
    }

    // Steps after the answer to an update: the request key is the next one.
    pub fn update(&mut self, all: bool)
        requires { self.old.request.epoch < 2 ^ 64 - 1 }
        ensures { (psk : List ℕ) (s : Steps) (sealed inner answer : List ℕ)
            → Keeps self.old psk s (awaited_epoch s (AskUpdate all)) → response_next s ≤ 65535
            → Keeps self.new psk (Took sealed inner (Grants (AskUpdate all) answer) ∷ s)
            (response_epoch (Took sealed inner (Grants (AskUpdate all) answer) ∷ s)) }
    {
        update(&mut self.request);
        self.request_next = 0;
        self.response_next = next_behind_update(self.response_next, all);
    }

    // Seals an inner message as the next record of requests, overwriting `out`.
    pub fn seal(&mut self, inner: &[u8], pad: &[u8], out: &mut RecordFrame)
        requires inner { length inner.now ≤ 1025 }
        requires pad { length pad.now ≤ MAX_PADDING }
        ensures record { (psk : List ℕ) (s : Steps) (epoch : ℕ) → Keeps self.old psk s epoch
            → request_next s ≤ 65535 → out.new ≡ sealed_next psk s inner.now pad.now }
        ensures keeps { (psk : List ℕ) (s : Steps) (epoch : ℕ) (awaited : Awaited)
            (before : List ChunkMessage) (sealed : List ℕ) → Keeps self.old psk s epoch
            → request_next s ≤ 65535
            → Keeps self.new psk (Asked (awaited_by awaited before) inner.now sealed ∷ s) epoch }
    {
        let number = record_number(self.request_next);
        self.request_next = self.request_next.saturating_add(1);
        seal_record(&self.request, self.id, number, inner, pad, out);
    }

    // What an inner message is to what is awaited.
    pub fn meaning<'a>(&self, awaited: Awaited, inner: &'a [u8]) -> Meaning<'a>
        ensures { (psk : List ℕ) (s : Steps) (epoch : ℕ) (before : List ChunkMessage) (q : ReqSetup)
            → Keeps self.now psk s epoch
            → q.transfer ≡ (session_terms s).common.to_requester.transfer
            → seen_meaning result ≡ meaning_of (session_terms s).common.chunk (update_tag s)
            (awaited_by awaited before)
            (contents_of q (hash_len (session_terms s)) inner.now) }
    {
        let transfer = self.terms.common.to_requester.transfer;
        match read_inner(transfer, self.terms.choice.hash.size(), inner) {
            Err(fault) => Meaning::Done(Verdict::Bad(fault)),
            Ok(Inner::Data(bytes)) => Meaning::Done(awaited.data(bytes)),
            Ok(Inner::Message(message)) => {
                awaited.message(self.terms.common.chunk, self.update_tag(), message)
            }
        }
    }

    // What the chunk that is awaited of a large response to an operation leads to, after what was gathered, with what
    // it brings overwriting `out`; nothing, where more chunks are awaited.
    pub fn collect(
        &self,
        op: u8,
        chunk: ChunkView<'_>,
        gathered: &mut Collector,
        out: &mut RecordFrame,
    ) -> Option<Outcome>
        ensures { (psk : List ℕ) (s : Steps) (epoch handle number : ℕ) (before : List ChunkMessage)
            (sealed : List ℕ) → Keeps self.now psk s epoch → keeping.StandsFor gathered.old before
            → gathered.old.max ≡ (session_terms s).common.to_requester.max
            → IsCollected psk s op handle number before sealed (chunk_message chunk.entry)
            gathered.new out.new result }
    {
        match gathered.take(chunk) {
            Collected::Refused(fault) => Some(Outcome::Bad(BadReply::Chunk(fault))),
            Collected::More => None,
            Collected::Whole(whole) => {
                let reached = self.has_reached(MOST_MEASURED);
                let hash_len = self.terms.choice.hash.size();
                Some(store_data(whole_verdict(whole, hash_len, reached, op), out))
            }
        }
    }
}
