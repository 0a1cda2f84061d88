ghost use Rattle.std.specs.Prelude.{◌≡◌};
ghost use Rattle.check_responder.specs.ClearAnswers.{given_in, is_large_given};

use crate::answer_length::is_too_long;
use crate::choosing::are_allowed;
use crate::clear_answers::{dropped_before, values_are_bounded};
use crate::clear_values::clear_values;
use crate::judged_responder::{judged_by, response_of, shows_large};
use crate::request_source::{RequestSource, asked_by};
use crate::{Given, Judged, JudgedResponder};
use responder_core::{FreeValues, Setup};
use spdm_basis::Frame;

/// Whether it brings a large response.
pub(crate) fn brings_large(judged: Judged) -> bool
    ensures { result ≡ is_large_given (given_in judged) }
{
    match judged {
        Judged::Given(Given::Large) => true,
        _ => false,
    }
}

// What would be said of an answer, which changes nothing.
impl JudgedResponder {
    ghost use Rattle.std.specs.Prelude.{◌≡◌, ◌<◌, ◌-◌, ◌^◌, ◌↔◌, ◌∷◌, true, false};
    ghost use Rattle.responder_core.specs.Free.{IsFree};
    ghost use Rattle.responder_core.specs.Setup.{IsSetUp};
    ghost use Rattle.responder_machine.specs.Answer.{Free};
    ghost use Rattle.responder_machine.specs.BoundLaws.{messages_of};
    ghost use Rattle.responder_machine.specs.History.{History, kept_of};
    ghost use Rattle.responder_machine.specs.History.Entry.{Dropped};
    ghost use Rattle.responder_machine.specs.Place.{clear_place};
    ghost use Rattle.responder_machine.specs.Refusal.{has_pending};
    ghost use Rattle.responder_machine.specs.Responder.{is_repeat};
    ghost use Rattle.responder_machine.specs.Setup.{RspSetup};
    ghost use Rattle.spdm_machine.specs.Bodies.{clear_body};
    ghost use Rattle.check_responder.specs.JudgedResponder.{AreBounded, IsAnswerer};
    ghost use Rattle.check_responder.specs.ClearAnswers.{IsJudgedAt, IsLongWith};
    ghost use Rattle.check_laws.specs.AnswersShown.{clear_values};
    ghost use Rattle.check_laws.specs.LargeShown.{IsShownLarge};

    // What `answers_at` would say, where no large response is pending in the clear.
    fn says_at(
        &self,
        setup: &Setup<'_>,
        tag: u8,
        message: &[u8],
        asked: &[u8],
        values: &FreeValues<'_>,
        reply: &[u8],
    ) -> Judged
        ensures { (r : RspSetup) (h : History) (f : Free) → IsSetUp setup.now r
            → IsAnswerer self.now r h → has_pending (clear_place h) ≡ false
            → messages_of h < 2 ^ 64 - 1 → IsFree values.now f → AreBounded f
            → IsLongWith r h message.now asked.now f
            → IsJudgedAt r h tag message.now f reply.now result }
    {
        let hash = self.connection.choice().hash;
        if !are_allowed(&self.connection, hash, values) {
            return Judged::Refused;
        }
        if is_too_long(setup, hash, asked, values) {
            return Judged::Refused;
        }
        let mut out = Frame::new();
        match self
            .connection
            .would_answer(setup, tag, message, values, &mut out)
        {
            Some(tried) => judged_by(
                tried.heard,
                out.as_slice(),
                reply,
                tried.pending,
                hash.size(),
            ),
            None => Judged::Refused,
        }
    }

    // What `answers_with` would say.
    fn says_with(
        &self,
        setup: &Setup<'_>,
        tag: u8,
        message: &[u8],
        values: &FreeValues<'_>,
        reply: &[u8],
    ) -> Judged
        ensures { (r : RspSetup) (h : History) → IsSetUp setup.now r → IsAnswerer self.now r h
            → has_pending (clear_place h) ≡ false → messages_of h < 2 ^ 64 - 1
            → is_repeat (kept_of h) tag message.now ≡ false
            → IsFree values.now (clear_values r h message.now reply.now)
            → IsJudgedAt r h tag message.now (clear_values r h message.now reply.now) reply.now
            result }
    {
        let hash = self.connection.choice().hash;
        values_are_bounded(values);
        let mut whole = Frame::new();
        match asked_by(setup, &self.connection, hash, message, reply, &mut whole) {
            RequestSource::Itself => self.says_at(setup, tag, message, message, values, reply),
            RequestSource::Carried => self.says_at(
                setup,
                tag,
                message,
                whole.as_slice(),
                values,
                reply,
            ),
            RequestSource::Never => Judged::Refused,
        }
    }

    // What `answers_anew` would say.
    fn says_anew(&self, setup: &Setup<'_>, tag: u8, message: &[u8], reply: &[u8]) -> Judged
        ensures { (r : RspSetup) (h : History) → IsSetUp setup.now r → IsAnswerer self.now r h
            → has_pending (clear_place h) ≡ false → messages_of h < 2 ^ 64 - 1
            → is_repeat (kept_of h) tag message.now ≡ false
            → IsJudgedAt r h tag message.now (clear_values r h message.now reply.now) reply.now
            result }
    {
        match clear_values(setup, &self.connection, message, reply) {
            None => Judged::Refused,
            Some(values) => self.says_with(setup, tag, message, &values, reply),
        }
    }

    // The same where this session is set aside meanwhile.
    fn says_without(
        &mut self,
        id: u16,
        setup: &Setup<'_>,
        tag: u8,
        message: &[u8],
        reply: &[u8],
    ) -> Judged
        ensures told { (r : RspSetup) (h : History) → IsSetUp setup.now r → IsAnswerer self.old r h
            → has_pending (clear_place h) ≡ false → messages_of h < 2 ^ 64 - 1
            → is_repeat (kept_of h) tag message.now ≡ false
            → IsJudgedAt r (Dropped id ∷ h) tag message.now
            (clear_values r (Dropped id ∷ h) message.now reply.now) reply.now result }
        ensures stands { (r : RspSetup) (h : History) → IsAnswerer self.old r h
            → IsAnswerer self.new r h }
    {
        let session = self.connection.set_aside(id);
        let judged = self.says_anew(setup, tag, message, reply);
        self.connection.put_back(id, session);
        judged
    }

    /// Whether an answer to a clear message begins a large response, by what it shows: it is LargeResponse, plain or in
    /// an acknowledgement, and no repeat. No large response is pending in the clear. The connection stays.
    pub fn tells_large(&mut self, setup: &Setup<'_>, tag: u8, message: &[u8], reply: &[u8]) -> bool
        ensures told { (r : RspSetup) (h : History) → IsSetUp setup.now r → IsAnswerer self.old r h
            → has_pending (clear_place h) ≡ false → messages_of h < 2 ^ 64 - 1
            → (result ≡ true) ↔ IsShownLarge r h tag (clear_body message.now)
            (clear_body reply.now) }
        ensures stands { (r : RspSetup) (h : History) → IsAnswerer self.old r h
            → IsAnswerer self.new r h }
    {
        if self.connection.is_repeat(tag, message) {
            return false;
        }
        if !shows_large(response_of(reply)) {
            return false;
        }
        match dropped_before(&self.connection, reply) {
            Some(id) => brings_large(self.says_without(id, setup, tag, message, reply)),
            None => brings_large(self.says_anew(setup, tag, message, reply)),
        }
    }
}
