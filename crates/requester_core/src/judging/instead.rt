use crate::{Body, ClearState, RequesterCore};

impl ClearState {
    ghost use Rattle.std.specs.Prelude.{Some};
    ghost use Rattle.requester_core.specs.Owed.{TookAny};
    ghost use Rattle.requester_core.specs.ClearState.{Shows};
    ghost use Rattle.requester_machine.specs.History.{History};
    ghost use Rattle.requester_machine.specs.Message.{Sent};
    ghost use Rattle.requester_machine.specs.Owed.{with_next};

    // The outstanding message, which was to go out by itself in response to the last message, was never sent.
    pub(crate) fn undo_send(&mut self)
        ensures { (bare : History) (sent : Sent) → TookAny bare
            → Shows self.old (with_next (Some sent) bare) → Shows self.new bare }
    {
        self.outgoing.undo_send();
    }
}

// A command in place of the outstanding message; used only by the checker.
impl RequesterCore {
    ghost use Rattle.std.specs.Prelude.{Some, false};
    ghost use Rattle.requester_core.specs.Joined.{IsDone, StandsFor};
    ghost use Rattle.requester_core.specs.Owed.{TookFor};
    ghost use Rattle.requester_machine.specs.Asking.{asks};
    ghost use Rattle.requester_machine.specs.Commands.{Free};
    ghost use Rattle.requester_machine.specs.History.{History};
    ghost use Rattle.requester_machine.specs.Message.{Sent};
    ghost use Rattle.requester_machine.specs.Message.Command.{Connect};
    ghost use Rattle.requester_machine.specs.Owed.{with_next};
    ghost use Rattle.requester_machine.specs.Setup.{ReqSetup};
    ghost use Rattle.spdm_machine.specs.Keys.{Draw};

    /// Starts over instead of the outstanding message, which was to be sent as a reaction to the last message: that was
    /// never sent, and GET_VERSION has its tag. The body overwrites `out`.
    pub fn restart_instead(&mut self, out: &mut Body) -> u8
        ensures { (q : ReqSetup) (bare : History) (sent : Sent) (f : Free) (d : Draw)
            → TookFor bare sent.aim → StandsFor self.old q (with_next (Some sent) bare)
            → IsDone q bare (asks false q bare Connect f d) result out.new self.new }
    {
        self.clear_state.undo_send();
        self.connect(out)
    }
}
