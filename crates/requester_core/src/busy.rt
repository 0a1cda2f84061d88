use crate::RequesterCore;

impl RequesterCore {
    ghost use Rattle.std.specs.Prelude.{◌≡◌, is_some};
    ghost use Rattle.requester_core.specs.Joined.{StandsFor};
    ghost use Rattle.requester_machine.specs.History.{History, outstanding};
    ghost use Rattle.requester_machine.specs.Setup.{ReqSetup};

    /// Whether a request is outstanding.
    pub fn is_busy(&self) -> bool
        ensures { (q : ReqSetup) (h : History) → StandsFor self.now q h
            → result ≡ is_some (outstanding h) }
    {
        self.clear_state.is_busy()
    }
}
