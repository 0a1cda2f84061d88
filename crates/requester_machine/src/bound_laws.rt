//! What bounds the counts of a history, each law stated as the contract of an empty function.

ghost use Rattle.requester_machine.specs.Bounds.{CountsAreBounded, SessionsAreBounded};

/// In every history, the draws taken, the messages sent and the large requests begun are at most as many as its
/// entries.
pub fn counts_are_bounded()
    ensures { CountsAreBounded }
{}

/// In every history, the epochs of a session and the application messages that it took are at most as many as the
/// entries, and its steps at most twice as many.
pub fn sessions_are_bounded()
    ensures { SessionsAreBounded }
{}
