ghost use Rattle.std.specs.Prelude.{List, None, false, true, ℕ, ◌≡◌, ◌≢◌};
ghost use Rattle.c_ends.specs.Holding.{HoldsResponder};
ghost use Rattle.c_ends.specs.Peeking.{IsPeeked};
ghost use Rattle.c_ends.specs.Setting.{is_eid};
ghost use Rattle.c_ends.specs.Watching.{AreChanges};
ghost use Rattle.c_ends.specs.declared.codes.TheConstants.{BAD_EID, CLOSED};
ghost use Rattle.responder_machine.specs.EndLaws.{source_of};
ghost use Rattle.responder_machine.specs.NewData.{brings};
ghost use Rattle.responder_machine.specs.Responding.{Responding, connection_of, responder_hears};

use c_ends::{Changes, Message, ResponderHandle, Watch};
use std::alloc::Global;

/// Tells the application message that a responder would take from this packet as a new one, if it were given it now.
/// Nothing of the responder changes.
#[unsafe(no_mangle)]
pub extern "C" fn spdm_responder_peek(
    responder: &mut ResponderHandle,
    alloc: Global,
    packet: &[u8],
    message: &mut Message,
    room: &mut [u8],
    len: &mut usize,
) -> u32
    ensures brings { (r : Responding) (sends : List (List ℕ))
        → HoldsResponder responder.old.kept.held r sends
        → IsPeeked (source_of packet.now) (brings r packet.now) result room.old room.new len.old
        len.new message.old message.new }
    ensures taken { (r : Responding) (sends : List (List ℕ))
        → HoldsResponder responder.old.kept.held r sends
        → IsPeeked (source_of packet.now) (responder_hears r packet.now).taken result room.old room.new
        len.old len.new message.old message.new }
    ensures kept { responder.new.kept.held ≡ responder.old.kept.held }
    ensures closed { responder.old.kept.held ≡ None → (result ≡ CLOSED) × (room.new ≡ room.old)
        × (len.new ≡ len.old) × (message.new ≡ message.old) }
{
    responder.peek(alloc, packet, message, room, len)
}

/// Writes what became of the sessions with this endpoint since they stood as the watch has them, by rising RspSessionID
/// from 1 to 4, and leaves the watch with how they stand now.
#[unsafe(no_mangle)]
pub extern "C" fn spdm_responder_changes(
    responder: &mut ResponderHandle,
    alloc: Global,
    eid: u8,
    watch: &mut Watch,
    changes: &mut Changes,
) -> u32
    ensures changes { (r : Responding) (sends : List (List ℕ))
        → HoldsResponder responder.old.kept.held r sends → is_eid eid ≡ true
        → AreChanges (connection_of eid r.connections) result watch.old watch.new changes.old
        changes.new }
    ensures bad_eid { responder.old.kept.held ≢ None → is_eid eid ≡ false
        → (result ≡ BAD_EID) × (watch.new ≡ watch.old) × (changes.new ≡ changes.old) }
    ensures kept { responder.new.kept.held ≡ responder.old.kept.held }
    ensures closed { responder.old.kept.held ≡ None
        → (result ≡ CLOSED) × (watch.new ≡ watch.old) × (changes.new ≡ changes.old) }
{
    responder.changes(alloc, eid, watch, changes)
}
