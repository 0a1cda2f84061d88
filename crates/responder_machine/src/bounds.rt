//! How far the counts of a history go, and the sizes of messages that it settles: each law is the contract of a
//! function that does nothing.

ghost use Rattle.responder_machine.specs.BoundLaws.{ConnectionIsBounded, QueueIsBounded, SessionIsBounded};
ghost use Rattle.responder_machine.specs.SizeLaws.{CommonIsNegotiated, SessionSizesAreSetUp, SizesAreSetUp};

/// Draws, application messages taken and large responses are at most as many as the messages that came: of the
/// connection, and of each session, whose records and updates of keys are so too.
pub fn counts_are_bounded()
    ensures connection { ConnectionIsBounded }
    ensures session { SessionIsBounded }
{}

/// In a history that the responder made at most 16 application messages wait, each of at most 1,024 bytes.
pub fn queue_is_bounded()
    ensures { QueueIsBounded }
{}

/// In a history that the responder made, from phase Capable on, what both ends can do is what some capabilities of a
/// requester and the responder's own can do together.
pub fn common_is_negotiated()
    ensures { CommonIsNegotiated }
{}

/// In a history of a responder whose sizes are within their limits, from phase Capable on and in each live session,
/// messages to the responder have its configured sizes, and the transfer size of messages to the requester is at least
/// 42 bytes, their max size at least that, and at most 4,096.
pub fn sizes_are_set_up()
    ensures connection { SizesAreSetUp }
    ensures session { SessionSizesAreSetUp }
{}
