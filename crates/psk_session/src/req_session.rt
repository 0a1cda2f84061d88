ghost use Rattle.std.specs.Prelude.{◌≡◌, ◌≤◌, ◌<◌, ◌-◌, ◌^◌, ◌+◌, [], ℕ, List, None, Some, true, false, OnOk, OnErr, MatchResult, is_ok, length};
ghost use Rattle.requester_machine.specs.Message as message;
ghost use Rattle.requester_machine.specs.Order.{stage_for};
ghost use Rattle.requester_machine.specs.Records.{answer_fault, answer_inner, answer_number};
ghost use Rattle.requester_machine.specs.Session.{Steps, request_next, response_epoch, response_next, session_terms, stage_of, taken_of};
ghost use Rattle.requester_machine.specs.Shown.{view_of};
ghost use Rattle.requester_machine.specs.SpentLaws.{FewFor};
ghost use Rattle.psk_session.specs.SessionRequest.{ask_fault, asked, asked_of, is_long};
ghost use Rattle.psk_session.specs.Course.{with_asked};
ghost use Rattle.psk_session.specs.Kept.{Keeps};
ghost use Rattle.psk_session.specs.ReqOpen as open_state;
ghost use Rattle.psk_session.specs.ReqSession.{IsAwaiting, IsOpen, again_in, data_in, is_awaiting, is_open, open_of, waiting_of};
ghost use Rattle.psk_session.specs.Stepped.{IsAskedBy, IsLeft, IsToldOf};
ghost use Rattle.psk_session.specs.Waiting as waiting;
ghost use Rattle.psk_session.specs.Waiting.{Awaits, awaited_epoch};
ghost use Rattle.psk_session.specs.declared.session_state.SessionState.TheVariants as standing;
ghost use Rattle.spdm_grammar.specs.declared.names.TheConstants.{MAX_PADDING};
ghost use Rattle.secured_record.specs.declared.TheConstants.{MAX_RECORD_SIZE};

use crate::ask_fault::AskFault;
use crate::kept::{Kept, record_number};
use crate::outcome::store_data;
use crate::response_outcome::ResponseOutcome;
use crate::session_request::{Awaited, SessionRequest};
use crate::session_state::SessionState;
use crate::session_told::SessionTold;
use crate::verdict::Meaning;
use chunking::Collector;
use secured_record::RecordFault;
use session_keys::open_record;
use spdm_basis::RecordFrame;
use spdm_grammar::SessionView;

/// A session at the requester after its handshake, updated in place. It is open or awaits a response; once it was
/// reported as ended or lost, it is neither.
#[derive(Drop)]
pub struct ReqSession {
    pub(crate) kept: Kept,
    pub(crate) standing: SessionState,
    pub(crate) gathered: Collector,
    // The record last made; once its answer opened, the inner message of that.
    pub(crate) sent: RecordFrame,
    // What the last answer brought; once something was asked, the inner message of that.
    pub(crate) brought: RecordFrame,
}

impl ReqSession {
    // The open session of which this is kept, which was brought nothing.
    pub(crate) fn new(kept: Kept) -> ReqSession
        ensures kept { result.kept ≡ kept }
        ensures standing { is_open result.standing ≡ true }
        ensures brought { result.brought ≡ [] }
    {
        let gathered = Collector::new(kept.terms.common.to_requester.max);
        ReqSession {
            kept,
            standing: SessionState::Open,
            gathered,
            sent: RecordFrame::new(),
            brought: RecordFrame::new(),
        }
    }

    /// Whether it is open, with nothing outstanding.
    pub fn is_open(&self) -> bool
        ensures { result ≡ is_open self.now.standing }
    {
        self.standing.is_open()
    }

    /// Whether it awaits an answer.
    pub fn is_awaiting(&self) -> bool
        ensures { result ≡ is_awaiting self.now.standing }
    {
        self.standing.is_awaiting()
    }

    /// The epoch of the key of requests.
    pub fn request_epoch(&self) -> u64
        ensures { result ≡ self.now.kept.request.epoch }
    {
        self.kept.request.epoch()
    }

    /// The epoch of the key under which the next record is opened.
    pub fn response_epoch(&self) -> u64
        ensures { result ≡ self.now.kept.response.epoch }
    {
        self.kept.response.epoch()
    }

    /// A view of the session, while it is open or awaits a response. Its count of application messages has 64 bits.
    pub fn view(&self) -> SessionView
        ensures opened { (psk : List ℕ) (s : Steps) → IsOpen self.now psk s
            → taken_of s < 2 ^ 64 → result ≡ view_of s }
        ensures awaiting { (psk : List ℕ) (s : Steps) (a : message.Ask)
            → IsAwaiting self.now psk s a → taken_of s < 2 ^ 64 → result ≡ view_of s }
        ensures request_epoch { result.request_epoch ≡ self.now.kept.request.epoch }
        ensures response_epoch { is_open self.now.standing ≡ true
            → result.response_epoch ≡ self.now.kept.response.epoch }
    {
        self.kept.view(self.standing.stage(), self.shown_epoch())
    }

    // The epoch of responses that is shown: that of the key before, while the answer is under the next one.
    fn shown_epoch(&self) -> u64
        ensures opened { is_open self.now.standing ≡ true → result ≡ self.now.kept.response.epoch }
        ensures awaiting { (psk : List ℕ) (s : Steps) (a : message.Ask)
            → IsAwaiting self.now psk s a → result ≡ response_epoch s }
    {
        let epoch = self.kept.response.epoch();
        if self.standing.is_of_all() {
            epoch.saturating_sub(1)
        } else {
            epoch
        }
    }

    /// What PSK_EXCHANGE_RSP told of the session.
    pub fn told(&self) -> &SessionTold
        ensures { result.now ≡ self.now.kept.told }
    {
        &self.kept.told
    }

    /// The record last sealed, to be sent again; empty unless a response is awaited.
    pub fn again(&self) -> &[u8]
        ensures value { result.now ≡ again_in self.now }
        ensures fits { length result.now ≤ MAX_RECORD_SIZE }
    {
        if self.is_awaiting() {
            self.sent.as_slice()
        } else {
            &[]
        }
    }

    /// The application data or measurement record of the last response; empty if it had none, and unless the session is
    /// open.
    pub fn data(&self) -> &[u8]
        ensures { result.now ≡ data_in self.now }
    {
        if self.is_open() {
            self.brought.as_slice()
        } else {
            &[]
        }
    }

    /// Sends a request in the session, which is open, in a record with this padding of at most 16 bytes. A refused
    /// request changes nothing. Requires an epoch below 2^64 - 1 for the response key.
    pub fn ask(&mut self, ask: SessionRequest<'_>, pad: &[u8]) -> Result<(), AskFault>
        requires open { is_open self.old.standing ≡ true }
        requires epoch { self.old.kept.response.epoch < 2 ^ 64 - 1 }
        requires pad { length pad.now ≤ MAX_PADDING }
        ensures asked { (psk : List ℕ) (s : Steps) → IsOpen self.old psk s
            → IsAskedBy psk s ask.entry pad.now self.new result }
        ensures standing { OnOk result (is_awaiting self.new.standing ≡ true) }
        ensures unchanged { OnErr result (self.new ≡ self.old) }
    {
        match self.kept.ask_fault(&ask) {
            Some(fault) => Err(fault),
            None => {
                self.make(ask, pad);
                Ok(())
            }
        }
    }

    // Makes the record that asks it.
    fn make(&mut self, ask: SessionRequest<'_>, pad: &[u8])
        requires epoch { self.old.kept.response.epoch < 2 ^ 64 - 1 }
        requires fits { is_long ask ≡ false }
        requires pad { length pad.now ≤ MAX_PADDING }
        ensures asked { (psk : List ℕ) (s : Steps) → open_state.StandsFor (open_of self.old) psk s
            → ask_fault s ask.entry ≡ None
            → IsAwaiting self.new psk (asked psk s ask.entry pad.now) (asked_of ask.entry) }
        ensures standing { is_awaiting self.new.standing ≡ true }
    {
        self.kept.write_inner(&ask, &mut self.brought);
        let awaited = ask.awaited();
        self.kept.use_next_key(awaited);
        self.send(awaited, pad);
    }

    // Seals the inner message that was written, and awaits this.
    pub(crate) fn send(&mut self, awaited: Awaited, pad: &[u8])
        requires inner { length self.old.brought ≤ 1025 }
        requires pad { length pad.now ≤ MAX_PADDING }
        ensures sent { (psk : List ℕ) (s : Steps) (a : message.Ask)
            → Keeps self.old.kept psk s (awaited_epoch s a) → stage_of s ≡ stage_for a
            → request_next s ≤ 65535 → FewFor a (request_next s + 1) (response_next s)
            → Awaits awaited self.old.gathered (session_terms s).common.to_requester.max a
            → IsAwaiting self.new psk (with_asked psk s a self.old.brought pad.now) a }
        ensures standing { is_awaiting self.new.standing ≡ true }
    {
        self.kept.seal(self.brought.as_slice(), pad, &mut self.sent);
        self.standing = SessionState::Awaits(awaited);
    }

    /// Handles a record from the responder while a response is awaited. A further record that is then to be sent has no
    /// padding. Requires an epoch below 2^64 - 1 for the request key.
    pub fn take(&mut self, sealed: &[u8]) -> ResponseOutcome
        requires awaiting { is_awaiting self.old.standing ≡ true }
        requires epoch { self.old.kept.request.epoch < 2 ^ 64 - 1 }
        ensures told { (psk : List ℕ) (s : Steps) (a : message.Ask) → IsAwaiting self.old psk s a
            → IsToldOf self.old psk s a sealed.now [] self.new result }
        ensures standing { IsLeft self.old self.new result }
    {
        self.take_with(sealed, &[])
    }

    /// Same as `take`, with this padding for the further record, of at most 16 bytes.
    pub fn take_with(&mut self, sealed: &[u8], pad: &[u8]) -> ResponseOutcome
        requires awaiting { is_awaiting self.old.standing ≡ true }
        requires epoch { self.old.kept.request.epoch < 2 ^ 64 - 1 }
        requires pad { length pad.now ≤ MAX_PADDING }
        ensures told { (psk : List ℕ) (s : Steps) (a : message.Ask) → IsAwaiting self.old psk s a
            → IsToldOf self.old psk s a sealed.now pad.now self.new result }
        ensures standing { IsLeft self.old self.new result }
    {
        if let Err(fault) = self.open_answer(sealed) {
            return ResponseOutcome::Stay(fault);
        }
        match self
            .kept
            .meaning(self.standing.awaited(), self.sent.as_slice())
        {
            Meaning::Done(verdict) => {
                let outcome = store_data(verdict, &mut self.brought);
                self.led(outcome, pad)
            }
            Meaning::Piece { op, chunk } => {
                let (handle, number) = (chunk.handle, chunk.number);
                match self
                    .kept
                    .collect(op, chunk, &mut self.gathered, &mut self.brought)
                {
                    Some(outcome) => self.led(outcome, pad),
                    None => self.go_on(op, handle, number, pad),
                }
            }
        }
    }

    // The number of the record that answers.
    fn number(&self) -> u16
        ensures { (psk : List ℕ) (s : Steps) (a : message.Ask) → IsAwaiting self.now psk s a
            → result ≡ answer_number s a }
    {
        if self.standing.is_of_all() {
            0
        } else {
            record_number(self.kept.response_next)
        }
    }

    // Opens the record that answers, and writes its inner message in place of the record that asked.
    fn open_answer(&mut self, sealed: &[u8]) -> Result<(), RecordFault>
        ensures fault { (psk : List ℕ) (s : Steps) (a : message.Ask) → IsAwaiting self.old psk s a
            → MatchResult result
            (λ _. answer_fault psk s a sealed.now ≡ None)
            (λ e. answer_fault psk s a sealed.now ≡ Some e) }
        ensures inner { (psk : List ℕ) (s : Steps) (a : message.Ask) → IsAwaiting self.old psk s a
            → OnOk result (self.new.sent ≡ answer_inner psk s a sealed.now) }
        ensures same { self.new ≡ record self.old { sent = self.new.sent } }
        ensures unchanged { OnErr result (self.new ≡ self.old) }
    {
        let number = self.number();
        open_record(
            &self.kept.response,
            self.kept.id,
            number,
            sealed,
            &mut self.sent,
        )
    }
}
