use crate::clear_answers::{blocks_are_few, dropped_before, values_are_bounded};
use crate::clear_values::{clear_values, least_values};
use crate::request_source::{RequestSource, asked_by};
use crate::{Judged, JudgedResponder};
use responder_core::{FreeValues, Setup};
use spdm_basis::Frame;

impl JudgedResponder {
    ghost use Rattle.std.specs.Prelude.{◌≡◌, ◌<◌, ◌-◌, ◌^◌, false, IfSome};
    ghost use Rattle.responder_core.specs.Free.{IsFree};
    ghost use Rattle.responder_core.specs.Setup.{IsSetUp};
    ghost use Rattle.responder_machine.specs.BoundLaws.{messages_of};
    ghost use Rattle.responder_machine.specs.History.{History, kept_of};
    ghost use Rattle.responder_machine.specs.May.{with_dropped};
    ghost use Rattle.responder_machine.specs.Place.{clear_place};
    ghost use Rattle.responder_machine.specs.Responder.{after, is_repeat, on_clear};
    ghost use Rattle.responder_machine.specs.Setup.{RspSetup};
    ghost use Rattle.capture_machine.specs.Rounds.{no_draw};
    ghost use Rattle.check_responder.specs.JudgedResponder.{IsAnswerer};
    ghost use Rattle.check_laws.specs.AnswersShown.{clear_values, least_values};
    ghost use Rattle.check_responder.specs.ClearAnswers.{IsJudgedAt, IsJudged, dropped_before, given_in, history_given};

    // Judges an answer to a clear message that is a repeat: it shows no values.
    fn answers_again(&mut self, setup: &Setup<'_>, tag: u8, message: &[u8], reply: &[u8]) -> Judged
        ensures told { (r : RspSetup) (h : History) → IsSetUp setup.now r → IsAnswerer self.old r h
            → messages_of h < 2 ^ 64 - 1 → IsJudgedAt r h tag message.now
            (least_values h (clear_place h)) reply.now result }
        ensures stands { (r : RspSetup) (h : History) → IsSetUp setup.now r
            → IsAnswerer self.old r h → messages_of h < 2 ^ 64 - 1
            → IfSome (given_in result) (λ given. IsAnswerer self.new r (after h
            (on_clear r h tag message.now (least_values h (clear_place h)) no_draw))) }
    {
        let hash = self.connection.choice().hash;
        let values = least_values(&self.connection, hash);
        values_are_bounded(&values);
        blocks_are_few(setup.inventory);
        self.answers_at(setup, tag, message, message, &values, reply)
    }

    // Judges an answer to a clear message that is no repeat at the values that it shows.
    fn answers_anew(&mut self, setup: &Setup<'_>, tag: u8, message: &[u8], reply: &[u8]) -> Judged
        ensures told { (r : RspSetup) (h : History) → IsSetUp setup.now r → IsAnswerer self.old r h
            → messages_of h < 2 ^ 64 - 1 → is_repeat (kept_of h) tag message.now ≡ false
            → IsJudgedAt r h tag message.now (clear_values r h message.now reply.now) reply.now
            result }
        ensures stands { (r : RspSetup) (h : History) → IsSetUp setup.now r
            → IsAnswerer self.old r h → messages_of h < 2 ^ 64 - 1
            → IfSome (given_in result) (λ given. IsAnswerer self.new r (after h
            (on_clear r h tag message.now (clear_values r h message.now reply.now) no_draw))) }
    {
        match clear_values(setup, &self.connection, message, reply) {
            None => Judged::Refused,
            Some(values) => self.answers_with(setup, tag, message, &values, reply),
        }
    }

    // Judges an answer to a clear message that is no repeat at these values, which it shows.
    fn answers_with(
        &mut self,
        setup: &Setup<'_>,
        tag: u8,
        message: &[u8],
        values: &FreeValues<'_>,
        reply: &[u8],
    ) -> Judged
        ensures told { (r : RspSetup) (h : History) → IsSetUp setup.now r → IsAnswerer self.old r h
            → messages_of h < 2 ^ 64 - 1 → is_repeat (kept_of h) tag message.now ≡ false
            → IsFree values.now (clear_values r h message.now reply.now)
            → IsJudgedAt r h tag message.now (clear_values r h message.now reply.now) reply.now
            result }
        ensures stands { (r : RspSetup) (h : History) → IsSetUp setup.now r
            → IsAnswerer self.old r h → messages_of h < 2 ^ 64 - 1
            → IsFree values.now (clear_values r h message.now reply.now)
            → IfSome (given_in result) (λ given. IsAnswerer self.new r (after h
            (on_clear r h tag message.now (clear_values r h message.now reply.now) no_draw))) }
    {
        let hash = self.connection.choice().hash;
        values_are_bounded(values);
        let mut whole = Frame::new();
        match asked_by(setup, &self.connection, hash, message, reply, &mut whole) {
            RequestSource::Itself => self.answers_at(setup, tag, message, message, values, reply),
            RequestSource::Carried => {
                self.answers_at(setup, tag, message, whole.as_slice(), values, reply)
            }
            RequestSource::Never => Judged::Refused,
        }
    }

    // The session that an answer shows as dropped is gone.
    fn drop_shown(&mut self, reply: &[u8])
        ensures { (r : RspSetup) (h : History) → IsAnswerer self.old r h
            → IsAnswerer self.new r (with_dropped h (dropped_before h reply.now)) }
    {
        if let Some(id) = dropped_before(&self.connection, reply) {
            self.connection.expire(id);
        }
    }

    /// Judges an answer to a clear message by what it shows. Requires fewer than 2^64 - 1 received messages. After an
    /// answer that is wrong nothing is kept.
    pub fn answers_clear(
        &mut self,
        setup: &Setup<'_>,
        tag: u8,
        message: &[u8],
        reply: &[u8],
    ) -> Judged
        ensures told { (r : RspSetup) (h : History) → IsSetUp setup.now r → IsAnswerer self.old r h
            → messages_of h < 2 ^ 64 - 1 → IsJudged r h tag message.now reply.now result }
        ensures stands { (r : RspSetup) (h : History) → IsSetUp setup.now r
            → IsAnswerer self.old r h → messages_of h < 2 ^ 64 - 1
            → IfSome (given_in result) (λ given. IsAnswerer self.new r
            (history_given r h tag message.now reply.now given)) }
    {
        if self.connection.is_repeat(tag, message) {
            return self.answers_again(setup, tag, message, reply);
        }
        self.drop_shown(reply);
        self.answers_anew(setup, tag, message, reply)
    }
}
