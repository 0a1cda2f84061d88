//! What is in progress in a history that the requester made, each law stated as the contract of an empty function.

ghost use Rattle.requester_machine.specs.UnderWay.{SizesAreSetUp, SessionSizesAreSetUp, LiveIsUnderNegotiation, ChunksAreUnderWay};

/// From CAPABILITIES on, what both ends can do is what the told capabilities have in common, and the sizes of messages
/// to the requester are its own.
pub fn sizes_are_set_up()
    ensures { SizesAreSetUp }
{}

/// The same of each live session.
pub fn session_sizes_are_set_up()
    ensures { SessionSizesAreSetUp }
{}

/// Each live session is under the negotiation as it stands, and the phase is Negotiated while one is live.
pub fn live_is_under_negotiation()
    ensures { LiveIsUnderNegotiation }
{}

/// What is outstanding: a request whole, one chunk of it, CHUNK_GET after the chunks that a collector accepted and that
/// are in progress, or the record that its session sealed last.
pub fn chunks_are_under_way()
    ensures { ChunksAreUnderWay }
{}
