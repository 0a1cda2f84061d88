ghost use Rattle.reset_laws.specs.GivenUp.{ResetGivesUp};

/// Whatever came before: behind a reset that has no fault, the version alone is negotiated with that endpoint, and no
/// session with it is live.
pub fn reset_gives_up()
    ensures { ResetGivesUp }
{}
