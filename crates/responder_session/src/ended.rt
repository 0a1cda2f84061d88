use crate::{ResponseValues, RspSession, RspTook, Work};

/// A session at the responder that END_SESSION ended, as a state of the session. It only recognizes the repeat of its
/// last record. `spdm` does not keep this state: the reply that it keeps of an ended session is `EndedRecord` in
/// responder_core.
#[derive(Drop)]
pub struct RspEnded {
    pub(crate) session: RspSession,
}

impl RspEnded {
    ghost use Rattle.std.specs.Prelude.{ℕ, List};
    ghost use Rattle.responder_session.specs.Ended.{StandsFor};
    ghost use Rattle.responder_session.specs.EndedTook.{IsEndedTook};

    /// Handles a record from the requester: the repeat of the last one, or one that does not open. The fault reported
    /// is the length or the id if they are wrong, and else the sequence number.
    pub fn take(mut self, sealed: &[u8]) -> RspTook
        ensures { (id old answer : List ℕ) → StandsFor self id old answer
            → IsEndedTook id old answer sealed.now result }
    {
        let free = ResponseValues::padding(&[]);
        let told = self
            .session
            .take_with(sealed, None, &free, &mut Work::new());
        RspTook::of(self.session, told)
    }
}
