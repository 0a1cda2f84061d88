use check_laws::byte_at;
use responder_session::AnswerKey;
use spdm_basis::RecordFrame;

/// What is known of a request before its answer is judged: the key of that answer, where the request is a record that
/// is taken, and then its inner message too. Fixed size; never allocates.
#[derive(Drop)]
pub struct PreparedRequest {
    pub(crate) key: Option<AnswerKey>,
    pub(crate) inner: RecordFrame,
}

impl PreparedRequest {
    ghost use Rattle.std.specs.Prelude.{◌≡◌, ℕ, List, None};
    ghost use Rattle.responder_machine.specs.History.{History};
    ghost use Rattle.responder_machine.specs.Setup.{RspSetup};
    ghost use Rattle.check_responder.specs.AnswerKeys.{IsComing, asks_for};

    /// Of no request.
    pub fn new() -> PreparedRequest
        ensures { result.key ≡ None }
    {
        PreparedRequest {
            key: None,
            inner: RecordFrame::new(),
        }
    }

    /// Whether the request of which this is known is a record that is taken, with this code where a request has it.
    pub fn asks(&self, code: u8) -> bool
        ensures { (r : RspSetup) (h : History) (body : List ℕ) → IsComing self.now r h body
            → result ≡ asks_for r h body code }
    {
        match &self.key {
            Some(_) => byte_at(self.inner.as_slice(), 2) == code,
            None => false,
        }
    }

    /// Takes the key out.
    pub fn take_key(&mut self) -> Option<AnswerKey>
        ensures { result ≡ self.old.key }
    {
        self.key.take()
    }
}
