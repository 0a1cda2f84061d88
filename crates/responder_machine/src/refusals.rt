//! What a refused request leaves of the connection beside its sessions, where it came in a record or in chunks: each
//! law is the contract of a function that does nothing.

ghost use Rattle.responder_machine.specs.RefusalLaws.{RefusedInChunksIsKept, RefusedInChunksKeepsConnection, RefusedRecordKeepsConnection};

/// A record whose inner request is refused changes nothing that is counted for the connection and its clear part:
/// phase, negotiation, stored reply, ended session, queue, draws, application data taken, and the large messages of the
/// clear part with their handles.
pub fn refused_record_keeps_connection()
    ensures { RefusedRecordKeepsConnection }
{}

/// A clear chunk whose carried request is refused keeps phase, negotiation, ended session, queue, draws, application
/// data taken and handles. Where the chunk itself is taken it is the kept clear request, no large response is pending
/// any more, and no chunk is in progress.
pub fn refused_in_chunks_keeps_connection()
    ensures keeps { RefusedInChunksKeepsConnection }
    ensures changes { RefusedInChunksIsKept }
{}
