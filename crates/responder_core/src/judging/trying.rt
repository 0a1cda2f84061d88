use crate::{ClearOutcome, ClearPart, Connection, DryRun, FreeValues, Setup};
use spdm_basis::Frame;
use spdm_grammar::Heard;

impl ClearPart {
    ghost use Rattle.std.specs.Prelude.{◌≡◌, ◌≤◌, ℕ, length};
    ghost use Rattle.responder_machine.specs.Answer.{Free};
    ghost use Rattle.responder_machine.specs.History.{History};
    ghost use Rattle.responder_machine.specs.May.{IsAllowed};
    ghost use Rattle.responder_machine.specs.Place.{clear_place, held_of};
    ghost use Rattle.responder_machine.specs.Setup.{RspSetup};
    ghost use Rattle.spdm_machine.specs.Keys.{Draw};
    ghost use Rattle.responder_core.specs.ClearPart.{IsAnswered, StandsFor};
    ghost use Rattle.responder_core.specs.Free.{IsFree};
    ghost use Rattle.responder_core.specs.Setup.{IsSetUp};
    ghost use Rattle.responder_core.specs.ClearState.{chosen_len};

    // Handles a clear message with its tag; `held` counts established sessions. The response overwrites `out`. A
    // session that the message begins is not kept.
    fn answer(
        &mut self,
        setup: &Setup<'_>,
        held: u8,
        tag: u8,
        message: &[u8],
        free: &FreeValues<'_>,
        out: &mut Frame,
    ) -> Heard
        requires { chosen_len self.old.requests.standing ≤ length free.now.context.now }
        ensures { (r : RspSetup) (h : History) (f : Free) (d : Draw) → IsSetUp setup.now r
            → IsFree free.now f → IsAllowed h (clear_place h) f → StandsFor self.old r h
            → held_of h ≡ held → IsAnswered r h tag message.now f d result self.new out.new }
    {
        match self.on_clear(setup, held, tag, message, free, out) {
            ClearOutcome::Same => Heard::Same,
            ClearOutcome::Refused(code) => Heard::Refused(code.number()),
            ClearOutcome::Answered { code, drawn: _ } => Heard::Answered(code),
            ClearOutcome::Begins(begun) => {
                let mut answer = Frame::new();
                let _session = self.start(begun, setup, message, free, &mut answer);
                self.begin(begun, tag, message, answer.as_slice(), free.handle, out);
                Heard::Answered(begun.code())
            }
        }
    }
}

// What would come of a message; used only by the checker.
impl Connection {
    ghost use Rattle.std.specs.Prelude.{◌≡◌, ◌≤◌, true, false, IfSome, is_some, length};
    ghost use Rattle.responder_machine.specs.Answer.{Free};
    ghost use Rattle.responder_machine.specs.History.{History};
    ghost use Rattle.responder_machine.specs.May.{IsAllowed};
    ghost use Rattle.responder_machine.specs.Place.{clear_place};
    ghost use Rattle.responder_machine.specs.Refusal.{has_pending};
    ghost use Rattle.responder_machine.specs.Responder.{on_clear};
    ghost use Rattle.responder_machine.specs.Setup.{RspSetup};
    ghost use Rattle.spdm_machine.specs.Bodies.{clear_body};
    ghost use Rattle.spdm_machine.specs.Keys.{Draw};
    ghost use Rattle.responder_core.specs.Connected.{StandsFor, context_len};
    ghost use Rattle.responder_core.specs.Free.{IsFree};
    ghost use Rattle.responder_core.specs.Setup.{IsSetUp};
    ghost use Rattle.responder_core.specs.Trying.{IsTried};

    /// The outcome that a clear message with this tag would have, with these free values for its response. The response
    /// that would be sent overwrites `out`. Nothing changes. `None` while a large response is pending. The context is at least
    /// as long as the chosen hash.
    pub fn would_answer(
        &self,
        setup: &Setup<'_>,
        tag: u8,
        message: &[u8],
        free: &FreeValues<'_>,
        out: &mut Frame,
    ) -> Option<DryRun>
        requires { context_len self.now ≤ length free.now.context.now }
        ensures tried { (r : RspSetup) (h : History) (f : Free) (d : Draw) → IsSetUp setup.now r
            → IsFree free.now f → IsAllowed h (clear_place h) f → StandsFor self.now r h
            → IfSome result (λ tried. IsTried h (on_clear r h tag message.now f d) tried
            (clear_body out.new)) }
        ensures idle { (r : RspSetup) (h : History) → StandsFor self.now r h
            → has_pending (clear_place h) ≡ false → is_some result ≡ true }
    {
        let mut clear = self.clear.idle_copy()?;
        let held = self.sessions.held();
        let heard = clear.answer(setup, held, tag, message, free, out);
        let pending = clear.standing().is_pending();
        Some(DryRun { heard, pending })
    }
}
