//! What a packet changes of what rows of the table depend on, each law stated as the contract of an empty function.

ghost use Rattle.check_laws.specs.ChangeLaws.{AckAcceptsNone, AnswerAccepts, AnswerAsksNone, CopyIsRequest, LargeAnswerChanges, LastChunkChanges, RoundIsRequest, WholeAnswerChanges};

/// A copy is a request that sends no record.
pub fn copy_is_request()
    ensures { CopyIsRequest }
{}

/// So is any other request, which may send one.
pub fn round_is_request()
    ensures { RoundIsRequest }
{}

/// By an answer no round begins.
pub fn answer_asks_none()
    ensures { AnswerAsksNone }
{}

/// What an answer changes that goes whole.
pub fn whole_answer_changes()
    ensures { WholeAnswerChanges }
{}

/// What LargeResponse changes.
pub fn large_answer_changes()
    ensures { LargeAnswerChanges }
{}

/// What the last chunk of a large response changes.
pub fn last_chunk_changes()
    ensures { LastChunkChanges }
{}

/// What the requester accepts by an answer that it hears.
pub fn answer_accepts()
    ensures { AnswerAccepts }
{}

/// By the acknowledgement of a chunk, but for the last one, it accepts none.
pub fn ack_accepts_none()
    ensures { AckAcceptsNone }
{}
