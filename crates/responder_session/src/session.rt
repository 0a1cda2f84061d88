ghost use Rattle.std.specs.Prelude.{◌≡◌, ◌≤◌, take, length, bytes_eq};
ghost use Rattle.responder_machine.specs.Records.{ended_fault};
ghost use Rattle.spdm_basis.specs.SessionIdBytes.{session_id_bytes};
ghost use Rattle.spdm_grammar.specs.declared.names.TheConstants.{MAX_APP_DATA_LEN, MAX_OPAQUE_LEN, MAX_PADDING};
ghost use Rattle.secured_record.specs.declared.TheConstants.{MAX_RECORD_SIZE, MIN_RECORD_SIZE};

use crate::applying::Opened;
use crate::exchange::{Exchange, answer_exchange};
use crate::kept::Kept;
use crate::{ExchangeParts, ResponseValues, RspTold, Work};
use measurements::Inventory;
use responder_rules::{LargeAnswer, Place};
use secured_record::{MIN_RECORD_SIZE, RecordFault};
use session_keys::{SessionTerms, behind_type, same_bytes};
use spdm_basis::{Buffer, Frame, Psk, SessionId};
use spdm_grammar::names::MAX_APP_DATA_LEN;
use spdm_grammar::{SessionView, Stage};
use transcript::{Lane, Vca};

/// A session at the responder in any stage, updated in place. Its keys, the last record with its response, the pending
/// large response and the application data are stored inline and do not move.
#[derive(Drop)]
pub struct RspSession {
    // None where END_SESSION ended it.
    pub(crate) stage: Option<Stage>,
    pub(crate) kept: Kept,
    pub(crate) exchange: Exchange,
    pub(crate) large: LargeAnswer,
    pub(crate) bytes: Buffer<MAX_APP_DATA_LEN>,
}

// Whether a record of at least 26 bytes begins with a session id.
fn names(sealed: &[u8], id: SessionId) -> bool
    requires { MIN_RECORD_SIZE ≤ length sealed.now }
    ensures { result ≡ bytes_eq (take 4 sealed.now) (session_id_bytes id.req id.rsp) }
{
    same_bytes(sealed.split_at(4).0, &id.bytes())
}

// What is reported of a record that does not open at an ended session.
pub fn ended_fault(id: SessionId, sealed: &[u8]) -> RecordFault
    ensures { result ≡ ended_fault (session_id_bytes id.req id.rsp) sealed.now }
{
    if sealed.len() < MIN_RECORD_SIZE {
        return RecordFault::Short;
    }
    if !names(sealed, id) {
        return RecordFault::WrongId;
    }
    RecordFault::WrongNumber
}

impl RspSession {
    ghost use Rattle.std.specs.Prelude.{◌≡◌, ◌≤◌, ◌<◌, ◌^◌, ℕ, List, None, Some, MatchOption, length};
    ghost use Rattle.responder_rules.specs.Place.{IsPlace};
    ghost use Rattle.responder_machine.specs.Answer.{Free};
    ghost use Rattle.responder_machine.specs.Heard.{view_of};
    ghost use Rattle.responder_machine.specs.Place.{session_place};
    ghost use Rattle.responder_machine.specs.LargeMessages.{next_handle};
    ghost use Rattle.responder_machine.specs.Session.{Events, exchange_of, last_of, session_negotiation, session_terms, stage_of, taken_of, turns_of};
    ghost use Rattle.responder_machine.specs.Setup.{RspSetup, inventory_of};
    ghost use Rattle.responder_machine.specs.SizeLaws.{HasSizes};
    ghost use Rattle.session_keys.specs.Terms.{AreTermsOf};
    ghost use Rattle.spdm_grammar.specs.declared.told.phase.Stage.TheVariants.{Handshake, Open};
    ghost use Rattle.transcript.specs.Transcripts.{Negotiation, vca_of};
    ghost use Rattle.responder_session.specs.RequestEffects.{AreGiven};
    ghost use Rattle.responder_session.specs.EndedTook.{IsEndedTold};
    ghost use Rattle.responder_session.specs.Exchange.{AreAnswered, AreParts, answer_for, begun};
    ghost use Rattle.responder_session.specs.Reply.{kept_reply, last_reply};
    ghost use Rattle.responder_session.specs.Session.{StandsFor, IsEnded};
    ghost use Rattle.responder_session.specs.Took.{IsTold};

    /// Creates the session of a PSK_EXCHANGE, after the messages of a negotiation and under its terms; overwrites `out`
    /// with the complete PSK_EXCHANGE_RSP with these parts (DSP0274), of at most 4,096 bytes. The context is at least
    /// as long as the hash.
    pub fn start(
        vca: &Vca,
        psk: &Psk,
        exchange: &[u8],
        terms: SessionTerms,
        parts: &ExchangeParts<'_>,
        out: &mut Frame,
    ) -> RspSession
        requires { AreParts terms parts.now }
        ensures answer { (n : Negotiation) → vca.now ≡ vca_of n → AreTermsOf terms n exchange.now
            → AreAnswered terms parts.now
            → out.new ≡ answer_for psk.now n exchange.now parts.now }
        ensures stands { (n : Negotiation) → vca.now ≡ vca_of n → AreTermsOf terms n exchange.now
            → AreAnswered terms parts.now
            → StandsFor result psk.now (begun n exchange.now out.new) }
    {
        let mut lane = Lane::new(terms.choice.hash);
        lane.push(vca.as_slice());
        lane.push(exchange);
        let handshake = answer_exchange(&lane, psk, terms, parts, out);
        lane.push(out.as_slice());
        RspSession {
            stage: Some(Stage::Handshake),
            kept: Kept::begin(&handshake, terms, parts.rsp_id),
            exchange: Exchange { lane, handshake },
            large: LargeAnswer::new(),
            bytes: Buffer::new(),
        }
    }

    /// The stage of the session; `None` if it has ended.
    pub fn stage(&self) -> Option<Stage>
        ensures live { (psk : List ℕ) (s : Events) → StandsFor self.now psk s
            → result ≡ Some (stage_of s) }
        ensures ended { (id old answer : List ℕ) → IsEnded self.now id old answer → result ≡ None }
    {
        self.stage
    }

    /// A view of the session; `None` if it has ended. Requires fewer than 2^64 received application messages.
    pub fn view(&self) -> Option<SessionView>
        ensures shown { (psk : List ℕ) (s : Events) → StandsFor self.now psk s
            → taken_of s < 2 ^ 64 → result ≡ Some (view_of s) }
        ensures ended { (id old answer : List ℕ) → IsEnded self.now id old answer → result ≡ None }
    {
        match self.stage {
            Some(stage) => Some(self.kept.view(stage)),
            None => None,
        }
    }

    /// The terms of the session: those of the negotiation and of the PSK_EXCHANGE that it began with.
    pub fn terms(&self) -> SessionTerms
        ensures { (psk : List ℕ) (s : Events) → StandsFor self.now psk s
            → AreTermsOf result (session_negotiation s) (exchange_of s) }
    {
        self.kept.terms
    }

    /// The response to the last record; `None` exactly in a handshake before the first record.
    pub fn reply(&self) -> Option<&[u8]>
        ensures kept { MatchOption result (kept_reply self.now ≡ None)
            (λ reply. kept_reply self.now ≡ Some reply.now) }
        ensures last { (psk : List ℕ) (s : Events) → StandsFor self.now psk s
            → MatchOption result (last_reply (last_of s) ≡ None)
            (λ reply. last_reply (last_of s) ≡ Some reply.now) }
        ensures ended { (id old answer : List ℕ) → IsEnded self.now id old answer
            → MatchOption result ⊥ (λ reply. reply.now ≡ answer) }
        ensures fits { MatchOption result (Unit {0}) (λ reply. length reply.now ≤ MAX_RECORD_SIZE) }
    {
        self.kept.last.last_reply()
    }

    /// The application data received last; empty before the first.
    pub fn data(&self) -> &[u8]
        ensures { result.now ≡ self.now.bytes }
    {
        self.bytes.as_slice()
    }

    /// The handle of the next large response, by this project's choice.
    pub fn next_handle(&self) -> u8
        ensures { (psk : List ℕ) (s : Events) → StandsFor self.now psk s
            → result ≡ next_handle (turns_of s) }
    {
        self.large.next_handle()
    }

    // What the rules for requests go by, in a stage.
    pub(crate) fn place(&self, stage: Stage) -> Place
        ensures { (psk : List ℕ) (s : Events) → StandsFor self.now psk s → stage ≡ stage_of s
            → IsPlace result (session_place s) }
    {
        self.kept.place(stage, self.large.is_pending())
    }

    /// Handles a record from the requester, whose response is about this inventory and has these free values: an open
    /// session needs an inventory and all values, any other no inventory and the padding alone. The nonce has 32 bytes,
    /// the opaque data and the reply at most 1,024, and the padding at most 16. The definitions fix the outcome while
    /// both epochs of an open session are below 2^64 - 1.
    pub fn take_with(
        &mut self,
        sealed: &[u8],
        inventory: Option<&Inventory>,
        free: &ResponseValues<'_>,
        work: &mut Work,
    ) -> RspTold
        requires nonce { length free.now.nonce.now ≡ 32 }
        requires opaque { length free.now.opaque.now ≤ MAX_OPAQUE_LEN }
        requires reply { length free.now.reply.now ≤ MAX_APP_DATA_LEN }
        requires pad { length free.now.pad.now ≤ MAX_PADDING }
        ensures live { (r : RspSetup) (s : Events) (f : Free) → HasSizes r (session_terms s).common
            → f.pad ≡ free.now.pad.now
            → (stage_of s ≡ Open → MatchOption inventory.entry ⊥ (λ i. inventory_of r ≡ i.now))
            → (stage_of s ≡ Open → AreGiven free.now f s)
            → StandsFor self.old r.psk s → IsTold r s f sealed.now self.new result }
        ensures ended { (id old answer : List ℕ) → IsEnded self.old id old answer
            → IsEndedTold id old answer sealed.now self.new result }
    {
        if self.kept.last.repeats(sealed) {
            return RspTold::Same;
        }
        let Some(stage) = self.stage else {
            return RspTold::Unopened(ended_fault(self.kept.id, sealed));
        };
        let Work {
            inner,
            answer,
            sent,
        } = work;
        if let Err(fault) = self.kept.open(sealed, inner) {
            return RspTold::Unopened(fault);
        }
        let inner = inner.as_slice();
        let deed = self.judge(stage, inner, inventory, free, answer);
        let opened = Opened {
            sealed,
            message: behind_type(inner),
            pad: free.pad,
        };
        RspTold::Moved(self.apply(&opened, &deed, answer, sent))
    }
}
