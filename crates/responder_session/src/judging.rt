ghost use Rattle.std.specs.Prelude.{◌≡◌};
ghost use Rattle.responder_machine.specs.Answer.{Free};
ghost use Rattle.responder_machine.specs.Handling.{error_bytes};
ghost use Rattle.responder_machine.specs.Place.{session_place};
ghost use Rattle.responder_machine.specs.Responder.{inner_refusal};
ghost use Rattle.responder_machine.specs.Session.{Events};
ghost use Rattle.responder_machine.specs.Setup.{RspSetup};
ghost use Rattle.responder_rules.specs.Place.{IsPlace};
ghost use Rattle.spdm_grammar.specs.declared.messages.error_code.ErrorCode.TheVariants.{ResponseTooLarge};
ghost use Rattle.responder_session.specs.declared.request_effect.RequestEffect.TheVariants as deed;
ghost use Rattle.spdm_grammar.specs.declared.names.TheConstants.{MAX_APP_DATA_LEN, MAX_OPAQUE_LEN};

use crate::answers::{write_alive, write_data, write_ended, write_finish_answer};
use crate::request_effect::RequestEffect;
use crate::requests::{give, measure, update};
use crate::{ResponseValues, RspSession};
use measurements::Inventory;
use responder_rules::Place;
use session_keys::{APP_DATA, behind_type, byte_at};
use spdm_basis::Frame;
use spdm_grammar::names::MAX_APP_DATA_LEN;
use spdm_grammar::names::message_type::SPDM;
use spdm_grammar::{ErrorCode, Request, Stage};

// What an inner message is refused for before it is read as a request.
pub fn inner_refusal(stage: Stage, inner: &[u8]) -> Option<ErrorCode>
    ensures { result ≡ inner_refusal stage inner.now }
{
    let kind = byte_at(inner, 0);
    if inner.is_empty() {
        return Some(ErrorCode::InvalidRequest);
    }
    if kind != SPDM && kind != APP_DATA {
        return Some(ErrorCode::InvalidRequest);
    }
    if kind == APP_DATA && stage != Stage::Open {
        return Some(ErrorCode::UnexpectedRequest);
    }
    if kind == APP_DATA && inner.len() > MAX_APP_DATA_LEN + 1 {
        return Some(ErrorCode::RequestTooLarge);
    }
    None
}

// A message is refused with a code other than ResponseTooLarge; writes its ERROR.
pub fn refused<'a>(
    place: &Place,
    code: ErrorCode,
    message: &[u8],
    out: &mut Frame,
) -> RequestEffect<'a>
    ensures deed { result ≡ deed.Refused code }
    ensures answer { (r : RspSetup) (s : Events) (f : Free) → IsPlace place.now (session_place s)
        → (code ≡ ResponseTooLarge → ⊥)
        → out.new ≡ error_bytes r (session_place s) message.now f code }
{
    place.write_error(code, message, 0, out);
    RequestEffect::Refused(code)
}

impl RspSession {
    ghost use Rattle.std.specs.Prelude.{◌≡◌, ◌≤◌, ℕ, List, MatchOption, Ok, drop, length};
    ghost use Rattle.responder_rules.specs.Place.{IsPlace, IsRead};
    ghost use Rattle.responder_machine.specs.Answer.{Free};
    ghost use Rattle.responder_machine.specs.Place.{session_place};
    ghost use Rattle.responder_machine.specs.Session.{Events, session_terms, stage_of};
    ghost use Rattle.responder_machine.specs.Setup.{RspSetup, inventory_of};
    ghost use Rattle.responder_machine.specs.SizeLaws.{HasSizes};
    ghost use Rattle.spdm_grammar.specs.Message.RequestMessage.{PskFinish};
    ghost use Rattle.spdm_grammar.specs.declared.told.phase.Stage.TheVariants.{Open};
    ghost use Rattle.responder_session.specs.RequestEffects.{AreGiven, IsAllowed, IsDeed, IsInnerDeed};
    ghost use Rattle.responder_session.specs.Session.{StandsFor};

    // What an inner message does in a stage; the whole answer to it is written.
    pub(crate) fn judge<'a>(
        &self,
        stage: Stage,
        inner: &'a [u8],
        inventory: Option<&Inventory>,
        free: &ResponseValues<'_>,
        out: &mut Frame,
    ) -> RequestEffect<'a>
        requires nonce { length free.now.nonce.now ≡ 32 }
        requires opaque { length free.now.opaque.now ≤ MAX_OPAQUE_LEN }
        requires reply { length free.now.reply.now ≤ MAX_APP_DATA_LEN }
        ensures { (r : RspSetup) (s : Events) (f : Free) → HasSizes r (session_terms s).common
            → (stage_of s ≡ Open → MatchOption inventory.entry ⊥ (λ i. inventory_of r ≡ i.now))
            → (stage_of s ≡ Open → AreGiven free.now f s)
            → StandsFor self.now r.psk s → stage ≡ stage_of s
            → IsInnerDeed r s f inner.now (drop 1 inner.now) out.new result }
    {
        let place = self.place(stage);
        let message = behind_type(inner);
        if let Some(code) = inner_refusal(stage, inner) {
            return refused(&place, code, message, out);
        }
        if byte_at(inner, 0) != SPDM {
            write_data(free.reply, out);
            return RequestEffect::Data;
        }
        match place.read(place.common.to_responder.transfer, message) {
            Err(code) => refused(&place, code, message, out),
            Ok(request) => self.judge_request(&place, message, &request, inventory, free, out),
        }
    }

    // What a request does that the stage allows.
    fn judge_request<'a>(
        &self,
        place: &Place,
        message: &'a [u8],
        request: &Request<'a>,
        inventory: Option<&Inventory>,
        free: &ResponseValues<'_>,
        out: &mut Frame,
    ) -> RequestEffect<'a>
        requires nonce { length free.now.nonce.now ≡ 32 }
        requires opaque { length free.now.opaque.now ≤ MAX_OPAQUE_LEN }
        ensures { (r : RspSetup) (s : Events) (f : Free) → HasSizes r (session_terms s).common
            → (stage_of s ≡ Open → MatchOption inventory.entry ⊥ (λ i. inventory_of r ≡ i.now))
            → (stage_of s ≡ Open → AreGiven free.now f s)
            → StandsFor self.now r.psk s → IsPlace place.now (session_place s)
            → IsRead r (session_place s) message.now (Ok request.now)
            → IsDeed r s f message.now out.new result }
    {
        if place.lacks_flag(byte_at(message, 1)) {
            return refused(place, ErrorCode::UnsupportedRequest, message, out);
        }
        match request {
            Request::PskFinish { verify } => self.finish(place, message, verify, out),
            Request::Heartbeat => {
                write_alive(out);
                RequestEffect::Alive
            }
            Request::EndSession => {
                write_ended(out);
                RequestEffect::Ended
            }
            Request::KeyUpdate { op, tag } => update(place, message, *op, *tag, out),
            Request::GetMeasurements { op } => measure(place, message, *op, inventory, free, out),
            Request::ChunkGet { handle, number } => {
                give(&self.large, place, message, *handle, *number, out)
            }
            _ => refused(place, ErrorCode::UnexpectedRequest, message, out),
        }
    }

    // What PSK_FINISH does.
    fn finish<'a>(
        &self,
        place: &Place,
        message: &[u8],
        verify: &'a [u8],
        out: &mut Frame,
    ) -> RequestEffect<'a>
        ensures { (r : RspSetup) (s : Events) (f : Free) → StandsFor self.now r.psk s
            → IsPlace place.now (session_place s)
            → IsAllowed r s message.now (PskFinish verify.now)
            → IsDeed r s f message.now out.new result }
    {
        let hash = self.kept.terms.choice.hash;
        if self.exchange.is_verified(hash, message, verify) {
            write_finish_answer(out);
            RequestEffect::Finished { verify }
        } else {
            refused(place, ErrorCode::DecryptError, message, out)
        }
    }
}
