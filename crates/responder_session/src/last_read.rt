use crate::RspSession;
use crate::kept::Kept;
use crate::last::LastRecord;
use session_keys::{open_record, same_bytes};
use spdm_basis::RecordFrame;

impl LastRecord {
    ghost use Rattle.std.specs.Prelude.{◌≡◌};
    ghost use Rattle.responder_session.specs.Kept.{kept_record};
    ghost use Rattle.responder_session.specs.LastRead.{is_last};

    // Whether these are the last record that was taken and its reply.
    fn is_last(&self, sealed: &[u8], answer: &[u8]) -> bool
        ensures { result ≡ is_last (kept_record self.now) sealed.now answer.now }
    {
        self.is_taken
            && (same_bytes(self.sealed.as_slice(), sealed)
                && same_bytes(self.reply.as_slice(), answer))
    }
}

impl Kept {
    ghost use Rattle.std.specs.Prelude.{◌≡◌, ℕ, List, true};
    ghost use Rattle.responder_machine.specs.Session.{Events};
    ghost use Rattle.responder_session.specs.Kept.{Keeps};
    ghost use Rattle.responder_session.specs.LastRead.{last_opened, opens_last, opens_reply, reply_opened};

    // Opens a record by the number before the next one, and writes its inner message.
    fn open_last(&self, sealed: &[u8], out: &mut RecordFrame) -> bool
        ensures told { (psk : List ℕ) (s : Events) → Keeps self.now psk s
            → result ≡ opens_last psk s sealed.now }
        ensures inner { (psk : List ℕ) (s : Events) → Keeps self.now psk s → result ≡ true
            → out.new ≡ last_opened psk s sealed.now }
    {
        let Some(number) = self.request_next.before() else {
            return false;
        };
        open_record(&self.request, self.id, number, sealed, out).is_ok()
    }

    // Opens an answer by the number before the next one, and writes its inner message.
    fn open_reply(&self, answer: &[u8], out: &mut RecordFrame) -> bool
        ensures told { (psk : List ℕ) (s : Events) → Keeps self.now psk s
            → result ≡ opens_reply psk s answer.now }
        ensures inner { (psk : List ℕ) (s : Events) → Keeps self.now psk s → result ≡ true
            → out.new ≡ reply_opened psk s answer.now }
    {
        let Some(number) = self.response_next.before() else {
            return false;
        };
        open_record(&self.response, self.id, number, answer, out).is_ok()
    }
}

// The last record read again, to judge the response to its repeat; used only by the checker.
impl RspSession {
    ghost use Rattle.std.specs.Prelude.{◌≡◌, ℕ, List, true, false};
    ghost use Rattle.responder_machine.specs.Session.{Events};
    ghost use Rattle.responder_session.specs.LastRead.{last_opened, reads_last, reply_opened};
    ghost use Rattle.responder_session.specs.Session.{StandsFor, IsEnded};

    /// Whether these are the last accepted record and its response, and both open under the present keys with the
    /// sequence numbers before the next ones, which holds unless the record changed a key. Their inner messages then
    /// overwrite `inner` and `reply`. Nothing changes.
    pub fn read_last(
        &self,
        sealed: &[u8],
        answer: &[u8],
        inner: &mut RecordFrame,
        reply: &mut RecordFrame,
    ) -> bool
        ensures live { (psk : List ℕ) (s : Events) → StandsFor self.now psk s
            → result ≡ reads_last psk s sealed.now answer.now }
        ensures inner { (psk : List ℕ) (s : Events) → StandsFor self.now psk s → result ≡ true
            → inner.new ≡ last_opened psk s sealed.now }
        ensures reply { (psk : List ℕ) (s : Events) → StandsFor self.now psk s → result ≡ true
            → reply.new ≡ reply_opened psk s answer.now }
        ensures ended { (id old answered : List ℕ) → IsEnded self.now id old answered
            → result ≡ false }
    {
        if self.stage.is_none() {
            return false;
        }
        if !self.kept.last.is_last(sealed, answer) {
            return false;
        }
        if !self.kept.open_last(sealed, inner) {
            return false;
        }
        self.kept.open_reply(answer, reply)
    }
}
