use crate::{Judged, JudgedResponder};
use responder_core::Setup;
use session_keys::behind_type;

// An answer in the clear to a request in the clear.
impl JudgedResponder {
    ghost use Rattle.std.specs.Prelude.{◌≡◌, ◌<◌, ◌-◌, ◌^◌, slice_index};
    ghost use Rattle.responder_core.specs.Setup.{IsSetUp};
    ghost use Rattle.responder_machine.specs.BoundLaws.{messages_of};
    ghost use Rattle.responder_machine.specs.Setup.{RspSetup};
    ghost use Rattle.check_responder.specs.JudgedResponder.{IsAnswerer};
    ghost use Rattle.check_responder.specs.Given.{IsGiven};
    ghost use Rattle.capture_machine.specs.Rounds.{Dialogue, Round};

    /// Judges a body as the answer to another one, both in the clear, by what it shows. Requires fewer than 2^64 - 1
    /// received messages.
    pub fn judges_in_clear(
        &mut self,
        setup: &Setup<'_>,
        tag: u8,
        body: &[u8],
        answer: &[u8],
    ) -> Judged
        ensures { (r : RspSetup) (d : Dialogue) (round : Round) → IsSetUp setup.now r
            → IsAnswerer self.old r d.responder → messages_of d.responder < 2 ^ 64 - 1
            → round.tag ≡ tag → round.body ≡ body.now → slice_index body.now 0 ≡ 5
            → slice_index answer.now 0 ≡ 5 → IsGiven r d round answer.now result self.new }
    {
        self.answers_clear(setup, tag, behind_type(body), behind_type(answer))
    }
}
