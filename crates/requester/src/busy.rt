use crate::Requester;

impl Requester {
    ghost use Rattle.std.specs.Prelude.{◌≡◌, is_some};
    ghost use Rattle.requester.specs.Standing.{StandsFor};
    ghost use Rattle.requester_machine.specs.History.{outstanding};
    ghost use Rattle.requester_machine.specs.Requesting.{Requesting};

    /// Whether a request is outstanding: then `command` takes `Connect` and `Retry` alone, and has `Busy` for each other
    /// command.
    pub fn is_busy(&self) -> bool
        ensures { (a : Requesting) → StandsFor self.now a
            → result ≡ is_some (outstanding a.history) }
    {
        self.asking.is_busy()
    }
}
