//! Which checks a message passed that was taken, each law stated as the contract of an empty function.

ghost use Rattle.requester_machine.specs.AcceptedLaws.{AcceptedIsVerified, AcceptedSessionIsVerified, TakenRecordIsOpened};

/// Where a body adds an answer to PSK_EXCHANGE to the history, it carries the answer whole, and the verify data in it
/// are the computed ones.
pub fn accepted_is_verified()
    ensures { AcceptedIsVerified }
{}

/// In a history that the requester made, the session of an answered PSK_EXCHANGE stands with this answer, whose verify
/// data are those of the responder over its T1.
pub fn accepted_session_is_verified()
    ensures { AcceptedSessionIsVerified }
{}

/// A record that adds an entry to the history opened without a fault under the purpose and number of the answer to the
/// outstanding request of its session, and the entry has the inner message that opening gives.
pub fn taken_record_is_opened()
    ensures { TakenRecordIsOpened }
{}
