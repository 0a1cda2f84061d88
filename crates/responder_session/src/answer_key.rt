ghost use Rattle.std.specs.Prelude.{◌≡◌, ◌<◌, ◌-◌, ◌^◌};
ghost use Rattle.secured_record.specs.declared.TheConstants.{MAX_RECORD_SIZE, MIN_RECORD_SIZE};

use crate::kept::update;
use secured_record::{RecordFault, RecordKey};
use session_keys::open_record;
use spdm_basis::{RecordFrame, SessionId};

/// The key, session id and sequence number of one response, separate from the session: it opens what was, or will be,
/// sealed under them, even when the session has moved on or ended.
#[derive(Drop)]
pub struct AnswerKey {
    pub(crate) key: RecordKey,
    pub(crate) id: SessionId,
    pub(crate) number: u16,
}

impl AnswerKey {
    ghost use Rattle.std.specs.Prelude.{◌≡◌, ◌≤◌, ◌<◌, ◌+◌, ◌-◌, ◌^◌, ℕ, List, None, Some, OnErr, OnOk, MatchResult, length};
    ghost use Rattle.key_schedule.specs.Purpose.{Purpose, iv_of, key_of};
    ghost use Rattle.secured_record.specs.Faults.{opened_text};
    ghost use Rattle.spdm_grammar.specs.declared.messages.choice.Choice.{Choice};
    ghost use Rattle.spdm_machine.specs.Keys.{inner_message, record_fault};
    ghost use Rattle.responder_session.specs.OwnAnswers.{IsAnswerKey};

    /// Opens a record as this response, and overwrites `out` with its inner message. The fault tells why it is no
    /// record under this key, sequence number and session id.
    pub fn open(&self, sealed: &[u8], out: &mut RecordFrame) -> Result<(), RecordFault>
        ensures fault { (choice : Choice) (p : Purpose) (number : ℕ) (id : List ℕ)
            → IsAnswerKey self.now choice p number id → MatchResult result
            (λ _. record_fault choice p number id sealed.now ≡ None)
            (λ e. record_fault choice p number id sealed.now ≡ Some e) }
        ensures inner { (choice : Choice) (p : Purpose) (number : ℕ) (id : List ℕ)
            → IsAnswerKey self.now choice p number id
            → OnOk result (out.new ≡ inner_message choice p number sealed.now) }
        ensures unchanged { OnErr result (out.new ≡ out.old) }
    {
        open_record(&self.key, self.id, self.number, sealed, out)
    }

    /// Overwrites `out` with the plaintext of a record of this response: the length of its inner message as two bytes,
    /// little-endian, that message, and the padding. The tag is not verified.
    pub fn text(&self, sealed: &[u8], out: &mut RecordFrame)
        requires least { MIN_RECORD_SIZE ≤ length sealed.now }
        requires most { length sealed.now ≤ MAX_RECORD_SIZE }
        ensures { (choice : Choice) (p : Purpose) (number : ℕ) (id : List ℕ)
            → IsAnswerKey self.now choice p number id
            → out.new ≡ opened_text (key_of choice.hash choice.aead p) (iv_of choice.hash p)
            number sealed.now }
    {
        self.key.text(self.number, sealed, out);
    }

    // The first answer under the next key, where epochs are left.
    pub(crate) fn next(mut self) -> AnswerKey
        ensures { self.key.epoch < 2 ^ 64 - 1 → (choice : Choice) (p : Purpose) (number : ℕ)
            (id : List ℕ) → IsAnswerKey self choice p number id
            → IsAnswerKey result choice (record p { epoch = p.epoch + 1 }) 0 id }
    {
        update(&mut self.key);
        self.number = 0;
        self
    }
}
