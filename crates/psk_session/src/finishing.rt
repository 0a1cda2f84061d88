ghost use Rattle.std.specs.Prelude.{◌≡◌, ◌≤◌, ◌++◌, ℕ, List, None, Some, OnOk, MatchResult, length};
ghost use Rattle.requester_machine.specs.Message.Ask.{AskFinish};
ghost use Rattle.requester_machine.specs.Records.{answer_fault, answer_inner};
ghost use Rattle.requester_machine.specs.Setup.{ReqSetup};
ghost use Rattle.spdm_basis.specs.Sizes.{hash_size};
ghost use Rattle.psk_session.specs.Finished.{IsFinishAnswer, IsFinishTook, finish_fault, finished_by};
ghost use Rattle.psk_session.specs.Inner.{contents_of};
ghost use Rattle.spdm_machine.specs.Sessions.{id_in_exchange};
ghost use Rattle.transcript.specs.Lane as lanes;
ghost use Rattle.transcript.specs.Lane.{lane_hash};
ghost use Rattle.transcript.specs.Transcripts.{Negotiation, vca_of};
ghost use Rattle.psk_session.specs.Finishing.{StandsFor};
ghost use Rattle.psk_session.specs.Told.{told_of};
ghost use Rattle.psk_session.specs.ReqOpen as open_state;
ghost use Rattle.session_keys.specs.Handshake.{IsHandshakeOf};
ghost use Rattle.session_keys.specs.Terms.{AreTermsOf};
ghost use Rattle.requester_machine.specs.Session.{t1_of};
ghost use Rattle.spdm_machine.specs.Terms.{terms_of};
ghost use Rattle.psk_session.specs.Opening.{accepted, finishing};
ghost use Rattle.requester_machine.specs.Shown.{view_of};
ghost use Rattle.spdm_grammar.specs.declared.names.TheConstants.{MAX_PADDING};
ghost use Rattle.secured_record.specs.declared.TheConstants.{MAX_RECORD_SIZE};

use crate::finish_record::{lane_with, seal_finish, verify_of_finish};
use crate::inner::{Inner, read_inner};
use crate::kept::Kept;
use crate::req_session::ReqSession;
use crate::requests::write_finish;
use crate::{Closed, FinishAnswer, FinishTook, ReqOpen, SessionTerms, SessionTold};
use secured_record::{RecordFault, RecordKey};
use session_keys::{Handshake, behind_type, open_record};
use spdm_basis::{Buffer, Frame, RecordFrame, SessionId};
use spdm_grammar::{BadReply, Response, SessionView, Stage};
use std::marker::Model;
use transcript::Lane;

/// A session at the requester that awaits PSK_FINISH_RSP.
#[derive(Drop)]
pub struct Finishing {
    pub(crate) lane: Lane,
    pub(crate) handshake: Handshake,
    pub(crate) response: RecordKey,
    pub(crate) id: SessionId,
    pub(crate) sent: Buffer<96>,
    pub(crate) terms: SessionTerms,
    pub(crate) told: SessionTold,
}

impl Model for Finishing {
    ghost use Rattle.std.specs.Prelude.{◌≡◌};
    ghost use Rattle.transcript.specs.Lane.{lane_hash};
    ghost use Rattle.psk_session.specs.Finishing.{Seen};

    ghost Value = { Seen };

    ghost view = { λ f. record {
      lane = f.lane;
      handshake = f.handshake;
      response = f.response;
      id = f.id;
      sent = f.sent;
      terms = f.terms;
      told = f.told;
    } };

    ghost invariant = { λ f. (lane_hash f.lane ≡ f.terms.choice.hash)
        × (f.handshake.keys.hash ≡ f.terms.choice.hash) };
}

impl Finishing {
    // The session whose PSK_EXCHANGE_RSP told this RspSessionID and this, with this padding for PSK_FINISH.
    // The lane was given the transcript up to PSK_EXCHANGE_RSP.
    pub(crate) fn new(
        mut lane: Lane,
        handshake: Handshake,
        terms: SessionTerms,
        rsp_id: u16,
        told: SessionTold,
        pad: &[u8],
    ) -> Finishing
        requires lane { lane_hash lane ≡ terms.choice.hash }
        requires keys { handshake.keys.hash ≡ terms.choice.hash }
        requires pad { length pad.now ≤ MAX_PADDING }
        ensures { (psk : List ℕ) (n : Negotiation) (exchange answer : List ℕ)
            → AreTermsOf terms n exchange
            → IsHandshakeOf handshake (terms_of n).choice psk
            (t1_of (accepted n exchange answer))
            → lanes.StandsFor lane (vca_of n ++ exchange ++ answer)
            → rsp_id ≡ id_in_exchange answer → told_of (accepted n exchange answer) ≡ Some told
            → StandsFor result psk n exchange answer pad.now }
    {
        let id = SessionId {
            req: terms.req_id,
            rsp: rsp_id,
        };
        let mut message = Frame::new();
        write_finish(verify_of_finish(&handshake, &lane).as_slice(), &mut message);
        lane.push(message.as_slice());
        let sent = seal_finish(&handshake, id, message.as_slice(), pad);
        let response = handshake.response_key();
        Finishing {
            lane,
            handshake,
            response,
            id,
            sent,
            terms,
            told,
        }
    }

    /// A view of the session.
    #[tactic(auto, unfolding(requester_machine::specs::Shown::view_of))]
    pub fn view(&self) -> SessionView
        ensures { (psk : List ℕ) (n : Negotiation) (exchange answer pad : List ℕ)
            → StandsFor self.now psk n exchange answer pad
            → result ≡ view_of (finishing psk n exchange answer pad) }
    {
        SessionView {
            id: self.id,
            stage: Stage::Handshake,
            request_epoch: 0,
            response_epoch: 0,
            request_next: 1,
            response_next: 0,
            taken: 0,
            hash: self.handshake.th1.clone().unwrap(),
            choice: self.terms.choice,
        }
    }

    /// What PSK_EXCHANGE_RSP told of the session.
    pub fn told(&self) -> &SessionTold
        ensures { result.now ≡ self.now.told }
    {
        &self.told
    }

    /// The record of PSK_FINISH, to be sent again.
    pub fn again(&self) -> &[u8]
        ensures value { result.now ≡ self.now.sent }
        ensures fits { length result.now ≤ MAX_RECORD_SIZE }
    {
        self.sent.as_slice()
    }

    /// Handles a record from the responder. Only PSK_FINISH_RSP opens the session; anything else that opens ends it.
    pub fn take(self, sealed: &[u8]) -> FinishTook
        ensures { (psk : List ℕ) (n : Negotiation) (exchange answer pad : List ℕ)
            → StandsFor self psk n exchange answer pad
            → IsFinishTook self psk (finishing psk n exchange answer pad) sealed.now result }
    {
        match self.answered(sealed) {
            FinishAnswer::Open(open) => FinishTook::Open(open),
            FinishAnswer::Bad(fault) => FinishTook::Bad(Closed, fault),
            FinishAnswer::Stay(fault) => FinishTook::Stay(self, fault),
        }
    }

    /// Same as `take`, for a state that stays where it is. If it opened the session, or lost it, it is not to be gone
    /// on with.
    pub fn answered(&self, sealed: &[u8]) -> FinishAnswer
        ensures { (psk : List ℕ) (n : Negotiation) (exchange answer pad : List ℕ)
            → StandsFor self.now psk n exchange answer pad
            → IsFinishAnswer psk (finishing psk n exchange answer pad) sealed.now result }
    {
        let mut inner = RecordFrame::new();
        if let Err(fault) = self.open_answer(sealed, &mut inner) {
            return FinishAnswer::Stay(fault);
        }
        match self.fault(inner.as_slice()) {
            Some(fault) => FinishAnswer::Bad(fault),
            None => FinishAnswer::Open(self.finish(inner.as_slice())),
        }
    }

    // Opens the record that answers, and writes its inner message.
    fn open_answer(&self, sealed: &[u8], out: &mut RecordFrame) -> Result<(), RecordFault>
        ensures fault { (psk : List ℕ) (n : Negotiation) (exchange answer pad : List ℕ)
            → StandsFor self.now psk n exchange answer pad
            → MatchResult result
            (λ _. answer_fault psk (finishing psk n exchange answer pad) AskFinish sealed.now
            ≡ None)
            (λ e. answer_fault psk (finishing psk n exchange answer pad) AskFinish sealed.now
            ≡ Some e) }
        ensures inner { (psk : List ℕ) (n : Negotiation) (exchange answer pad : List ℕ)
            → StandsFor self.now psk n exchange answer pad
            → OnOk result (out.new
            ≡ answer_inner psk (finishing psk n exchange answer pad) AskFinish sealed.now) }
    {
        open_record(&self.response, self.id, 0, sealed, out)
    }

    // The fault of the inner message of an answer.
    fn fault(&self, inner: &[u8]) -> Option<BadReply>
        ensures { (q : ReqSetup) → q.transfer ≡ self.now.terms.common.to_requester.transfer
            → result ≡ finish_fault
            (contents_of q (hash_size self.now.terms.choice.hash) inner.now) }
    {
        let transfer = self.terms.common.to_requester.transfer;
        match read_inner(transfer, self.terms.choice.hash.size(), inner) {
            Err(fault) => Some(fault),
            Ok(Inner::Message(Response::PskFinishRsp)) => None,
            Ok(Inner::Message(Response::Error { code, .. })) => Some(BadReply::Refused(code)),
            Ok(_) => Some(BadReply::WrongKind),
        }
    }

    // The open session, with the inner message that holds PSK_FINISH_RSP.
    fn finish(&self, inner: &[u8]) -> ReqOpen
        ensures { (psk : List ℕ) (n : Negotiation) (exchange answer pad sealed : List ℕ)
            → StandsFor self.now psk n exchange answer pad
            → inner.now ≡ answer_inner psk (finishing psk n exchange answer pad) AskFinish sealed
            → open_state.StandsFor result psk
            (finished_by psk (finishing psk n exchange answer pad) sealed) }
    {
        let th2 = lane_with(&self.lane, behind_type(inner)).finish();
        let keys = self.handshake.app_keys(&th2);
        let kept = Kept {
            request: RecordKey::new(keys.request),
            response: RecordKey::new(keys.response),
            request_next: 0,
            response_next: 0,
            taken: 0,
            th2,
            id: self.id,
            terms: self.terms,
            told: self.told.copy(),
        };
        ReqOpen {
            session: ReqSession::new(kept),
        }
    }
}
