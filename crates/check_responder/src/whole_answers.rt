use crate::JudgedResponder;
use crate::clear_answers::values_are_bounded;
use crate::clear_values::{chunk_of, clear_values};
use crate::large_told::brings_large;
use crate::response_values::field_values;
use responder_core::{FreeValues, Setup};
use spdm_basis::Frame;

// LargeResponse to a clear message, once its whole answer is there.
impl JudgedResponder {
    ghost use Rattle.std.specs.Prelude.{◌≡◌, ◌<◌, ◌-◌, ◌^◌, ◌↔◌, true, false};
    ghost use Rattle.responder_core.specs.Free.{IsFree};
    ghost use Rattle.responder_core.specs.Setup.{IsSetUp};
    ghost use Rattle.responder_machine.specs.Answer.{Free};
    ghost use Rattle.responder_machine.specs.BoundLaws.{messages_of};
    ghost use Rattle.responder_machine.specs.History.{History, kept_of};
    ghost use Rattle.responder_machine.specs.Responder.{after, is_repeat, on_clear};
    ghost use Rattle.responder_machine.specs.Setup.{RspSetup};
    ghost use Rattle.capture_machine.specs.Rounds.{no_draw};
    ghost use Rattle.check_responder.specs.JudgedResponder.{IsAnswerer};
    ghost use Rattle.check_responder.specs.ClearAnswers.{IsLongWith};
    ghost use Rattle.check_responder.specs.WholeAnswers.{IsLargeAt, clear_shown};
    ghost use Rattle.check_laws.specs.AnswersShown.{clear_values};

    // Whether a clear message leads to LargeResponse at these values. The whole answer to the message passes 4,096
    // bytes where that to `asked` does.
    fn leads_at(
        &mut self,
        setup: &Setup<'_>,
        tag: u8,
        message: &[u8],
        asked: &[u8],
        values: &FreeValues<'_>,
        reply: &[u8],
    ) -> bool
        ensures told { (r : RspSetup) (h : History) (f : Free) → IsSetUp setup.now r
            → IsAnswerer self.old r h → messages_of h < 2 ^ 64 - 1 → IsFree values.now f
            → IsLongWith r h message.now asked.now f
            → (result ≡ true) ↔ IsLargeAt r h tag message.now f reply.now }
        ensures stands { (r : RspSetup) (h : History) (f : Free) → IsSetUp setup.now r
            → IsAnswerer self.old r h → messages_of h < 2 ^ 64 - 1 → IsFree values.now f
            → result ≡ true
            → IsAnswerer self.new r (after h (on_clear r h tag message.now f no_draw)) }
    {
        values_are_bounded(values);
        brings_large(self.answers_at(setup, tag, message, asked, values, reply))
    }

    // Whether a clear message that is no repeat leads to LargeResponse at the values in the fields of the whole answer;
    // what that does not show stands in these.
    fn leads_with(
        &mut self,
        setup: &Setup<'_>,
        tag: u8,
        message: &[u8],
        values: FreeValues<'_>,
        reply: &[u8],
        whole: &[u8],
    ) -> bool
        ensures told { (r : RspSetup) (h : History) → IsSetUp setup.now r → IsAnswerer self.old r h
            → messages_of h < 2 ^ 64 - 1 → is_repeat (kept_of h) tag message.now ≡ false
            → IsFree values.entry (clear_values r h message.now reply.now)
            → (result ≡ true) ↔ IsLargeAt r h tag message.now
            (clear_shown r h message.now reply.now whole.now) reply.now }
        ensures stands { (r : RspSetup) (h : History) → IsSetUp setup.now r
            → IsAnswerer self.old r h → messages_of h < 2 ^ 64 - 1
            → IsFree values.entry (clear_values r h message.now reply.now) → result ≡ true
            → IsAnswerer self.new r (after h (on_clear r h tag message.now
            (clear_shown r h message.now reply.now whole.now) no_draw)) }
    {
        let hash = self.connection.choice().hash;
        match chunk_of(message, hash.size()) {
            None => {
                let shown = field_values(hash, message, values, whole);
                self.leads_at(setup, tag, message, message, &shown, reply)
            }
            Some(chunk) => {
                let mut large = Frame::new();
                if !self.connection.completes(chunk, &mut large) {
                    return false;
                }
                let shown = field_values(hash, large.as_slice(), values, whole);
                self.leads_at(setup, tag, message, large.as_slice(), &shown, reply)
            }
        }
    }

    /// Whether a clear message that is no repeat leads to this LargeResponse at the values that it and its whole answer
    /// show. Which bytes are pending after it is not told. Requires fewer than 2^64 - 1 received messages. After a
    /// reply that is wrong nothing is kept.
    pub fn leads_to_large(
        &mut self,
        setup: &Setup<'_>,
        tag: u8,
        message: &[u8],
        reply: &[u8],
        whole: &[u8],
    ) -> bool
        ensures told { (r : RspSetup) (h : History) → IsSetUp setup.now r → IsAnswerer self.old r h
            → messages_of h < 2 ^ 64 - 1 → r.beat < 256
            → is_repeat (kept_of h) tag message.now ≡ false
            → (result ≡ true) ↔ IsLargeAt r h tag message.now
            (clear_shown r h message.now reply.now whole.now) reply.now }
        ensures stands { (r : RspSetup) (h : History) → IsSetUp setup.now r
            → IsAnswerer self.old r h → messages_of h < 2 ^ 64 - 1 → result ≡ true
            → IsAnswerer self.new r (after h (on_clear r h tag message.now
            (clear_shown r h message.now reply.now whole.now) no_draw)) }
    {
        match clear_values(setup, &self.connection, message, reply) {
            None => false,
            Some(values) => self.leads_with(setup, tag, message, values, reply, whole),
        }
    }
}
