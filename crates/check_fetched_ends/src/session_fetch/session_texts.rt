ghost use Rattle.std.specs.Prelude.{◌≡◌, ◌≤◌, ◌<◌, ◌-◌, ◌^◌, ◌⊎◌, ℕ, List, MatchOption, drop, length, true, false};
ghost use Rattle.check_responder.specs.AnswerKeys.{will_take};
ghost use Rattle.check_responder.specs.JudgedResponder.{IsAnswerer};
ghost use Rattle.check_fetched_laws.specs.AnswerTexts.{Holds};
ghost use Rattle.responder_machine.specs.BoundLaws.{messages_of};
ghost use Rattle.responder_machine.specs.History.{History};
ghost use Rattle.responder_machine.specs.Setup.{RspSetup};
ghost use Rattle.check_fetched_ends.specs.InSession.{IsTextOf, is_chunk};
ghost use Rattle.check_fetched_ends.specs.SessionOthers.{IsRefusing};
ghost use Rattle.spdm_grammar.specs.declared.names.TheConstants.{MAX_BODY_SIZE};
ghost use Rattle.secured_record.specs.declared.TheConstants.{MIN_RECORD_SIZE};

use check_fetched_laws::message_in;
use check_responder::JudgedResponder;
use secured_record::MIN_RECORD_SIZE;
use session_keys::{behind_type, byte_at};
use spdm_basis::RecordFrame;
use spdm_grammar::names::response_code::{CHUNK_RESPONSE, ERROR};

// The length of no text passes this.
const MOST_TEXT: usize = 65535;

/// What a record holds as the answer to one that its session takes, overwriting `text`. False where the session does
/// not take that one. Requires fewer than 2^64 - 1 received messages.
pub(crate) fn reads_text(
    answerer: &mut JudgedResponder,
    body: &[u8],
    answer: &[u8],
    text: &mut RecordFrame,
) -> bool
    requires { length answer.now ≤ MAX_BODY_SIZE }
    ensures told { (r : RspSetup) (h : History) → IsAnswerer answerer.old r h
        → messages_of h < 2 ^ 64 - 1 → result ≡ true
        → IsTextOf r h body.now answer.now text.new }
    ensures none { (r : RspSetup) (h : History) → IsAnswerer answerer.old r h
        → messages_of h < 2 ^ 64 - 1 → result ≡ false
        → (length (drop 1 answer.now) < MIN_RECORD_SIZE) ⊎ (will_take r h body.now ≡ false) }
    ensures same { answerer.new.connection ≡ answerer.old.connection }
{
    let sealed = behind_type(answer);
    if sealed.len() < MIN_RECORD_SIZE {
        return false;
    }
    match answerer.coming_key(body) {
        Some(key) => {
            key.text(sealed, text);
            text.as_slice().len() <= MOST_TEXT
        }
        None => false,
    }
}

/// The CHUNK_RESPONSE that a text holds, of fewer than 65,536 bytes; `None` where it holds something else.
pub(crate) fn chunk_in(text: &[u8]) -> Option<&[u8]>
    ensures { MatchOption result (length text.now < 65536 → (message : List ℕ)
        → Holds text.now message → is_chunk message ≡ true → ⊥) (λ message. Holds text.now message.now × (is_chunk message.now ≡ true)) }
{
    let Some(message) = message_in(text) else {
        return None;
    };
    if byte_at(message, 1) == CHUNK_RESPONSE {
        return Some(message);
    }
    None
}

/// Whether a text, of fewer than 65,536 bytes, holds ERROR.
pub(crate) fn holds_error(text: &[u8]) -> bool
    ensures { length text.now < 65536 → IsRefusing text.now result }
{
    let Some(message) = message_in(text) else {
        return false;
    };
    byte_at(message, 1) == ERROR
}
