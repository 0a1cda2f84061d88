ghost use Rattle.std.specs.Prelude.{◌≡◌};
ghost use Rattle.secured_record.specs.declared.TheConstants.{MAX_RECORD_SIZE};

use session_keys::same_bytes;
use spdm_basis::RecordFrame;

/// The last accepted record with its response, stored inline; none before the first.
#[derive(Drop)]
pub struct LastRecord {
    pub is_taken: bool,
    pub sealed: RecordFrame,
    pub reply: RecordFrame,
}

impl LastRecord {
    ghost use Rattle.std.specs.Prelude.{◌≡◌, ◌≤◌, None, Some, MatchOption, true, length};
    ghost use Rattle.responder_machine.specs.Responder.{repeats};
    ghost use Rattle.responder_session.specs.Kept.{kept_record};
    ghost use Rattle.responder_session.specs.Reply.{last_reply};

    /// No record was accepted yet.
    pub fn none() -> LastRecord
        ensures { kept_record result ≡ None }
    {
        LastRecord {
            is_taken: false,
            sealed: RecordFrame::new(),
            reply: RecordFrame::new(),
        }
    }

    /// Whether a record repeats the last accepted one.
    pub fn repeats(&self, sealed: &[u8]) -> bool
        ensures { result ≡ repeats (kept_record self.now) sealed.now }
    {
        self.is_taken && same_bytes(self.sealed.as_slice(), sealed)
    }

    /// Stores an accepted record of at most 4,160 bytes; its response is already stored.
    pub fn keep(&mut self, sealed: &[u8])
        requires { length sealed.now ≤ MAX_RECORD_SIZE }
        ensures { self.new ≡ record self.old { is_taken = true; sealed = sealed.now } }
    {
        self.is_taken = true;
        let _ = self.sealed.replace(sealed);
    }

    /// The reply to the last record.
    pub fn last_reply(&self) -> Option<&[u8]>
        ensures value { MatchOption result (last_reply (kept_record self.now) ≡ None)
            (λ reply. last_reply (kept_record self.now) ≡ Some reply.now) }
        ensures fits { MatchOption result (Unit {0}) (λ reply. length reply.now ≤ MAX_RECORD_SIZE) }
    {
        if self.is_taken {
            Some(self.reply.as_slice())
        } else {
            None
        }
    }
}
