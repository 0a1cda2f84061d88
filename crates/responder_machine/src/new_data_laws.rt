//! What a responder does with a packet that brings a new application message, each law stated as the contract of an
//! empty function.

ghost use Rattle.responder_machine.specs.NewDataLaws.{BroughtIsAnswered, BroughtIsTaken, QueuedBringsAlike, QueuedIsSent};

/// What a packet is said to bring is what the responder takes from it, where it takes anything.
pub fn brought_is_taken()
    ensures { BroughtIsTaken }
{}

/// What a packet brings is told as taken, and answered with the application data that waits first.
pub fn brought_is_answered()
    ensures { BroughtIsAnswered }
{}

/// Application data that is queued changes nothing of what a packet brings.
pub fn queued_brings_alike()
    ensures { QueuedBringsAlike }
{}

/// Where nothing waits, a reply that is queued for the source of a packet that brings a message answers that packet.
pub fn queued_is_sent()
    ensures { QueuedIsSent }
{}
