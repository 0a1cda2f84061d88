//! Which event changes which session, stated as the contract of an empty function.
ghost use Rattle.responder.specs.ChangeLaws.{ChangesAreCaused};

/// What became of a session over one message, queued data or seconds is what `change_by` reads off that event alone:
/// END_SESSION and GET_VERSION end, PSK_FINISH establishes, PSK_EXCHANGE begins and takes the place of a handshake, and
/// seconds remove what was silent for twice its period.
pub fn changes_are_caused()
    ensures { ChangesAreCaused }
{}
