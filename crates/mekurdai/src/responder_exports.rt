ghost use Rattle.std.specs.Prelude.{List, None, Some, [], false, slice_get, true, ℕ, ◌≡◌, ◌≢◌};
ghost use Rattle.c_ends.specs.Codes.{told_of_reply, told_of_reset};
ghost use Rattle.c_ends.specs.Holding.{HoldsOthers, HoldsResponder};
ghost use Rattle.c_ends.specs.Opening.{HasResponderFault, RefusesResponder};
ghost use Rattle.c_ends.specs.Setting.{is_eid, responder_argument, responder_in};
ghost use Rattle.c_ends.specs.Telling.{heard_told};
ghost use Rattle.c_ends.specs.Writing.{IsPut, IsWritten};
ghost use Rattle.c_ends.specs.declared.codes.TheConstants.{BAD_EID, CLOSED, NONE, OK, UNKNOWN_PEER};
ghost use Rattle.responder.specs.Resetting.{after_reset, reset_fault, version_packet};
ghost use Rattle.responder.specs.Standing.{views_at};
ghost use Rattle.responder.specs.Unharmed.{IsHarmless};
ghost use Rattle.responder_machine.specs.Independence.{after_reply};
ghost use Rattle.responder_machine.specs.Responding.{Responding, connection_of, last_data, new_responding, reply_fault_of, responder_hears, ticks};
ghost use Rattle.std.specs.Option.{option_map};
ghost use Rattle.c_ends.specs.Showing.{phase_code, shown};
ghost use Rattle.responder_machine.specs.History.{clear_turns, phase_of};

use c_ends::{Block, KnownRequester, PacketOutcome, ResponderConfig, ResponderHandle, Session};
use std::alloc::Global;

/// Opens a responder. Takes all the memory that it will ever have. After any answer but `OK` the handle holds what
/// it held.
#[unsafe(no_mangle)]
pub extern "C" fn spdm_responder_open(
    responder: &mut ResponderHandle,
    alloc: Global,
    config: &ResponderConfig<'_>,
    known: &[KnownRequester<'_>],
    blocks: &[Block<'_>],
) -> u32
    ensures opened { result ≡ OK → HoldsResponder responder.new.kept.held
        (new_responding (responder_in config.now known.now blocks.now)) [] }
    ensures was_closed { result ≡ OK → responder.old.kept.held ≡ None }
    ensures words { result ≡ OK → responder_argument config.now known.now ≡ None }
    ensures config { result ≡ OK → HasResponderFault config.now known.now blocks.now None }
    ensures refused { result ≢ OK
        → RefusesResponder responder.old.kept.held config.now known.now blocks.now result }
    ensures unchanged { result ≢ OK → responder.new.kept.held ≡ responder.old.kept.held }
{
    responder.open(alloc, config, known, blocks)
}

/// Gives a packet to a responder. What it led to is written to `told`, and the packets that it sends next replace
/// those before. A refused request changes nothing in the sessions but the record numbers, the stored response and
/// the clock of the session that its record names; the connections with other endpoints than the source of the packet
/// stay as they were.
#[unsafe(no_mangle)]
pub extern "C" fn spdm_responder_on_packet(
    responder: &mut ResponderHandle,
    alloc: Global,
    packet: &[u8],
    told: &mut PacketOutcome,
) -> u32
    ensures step { (r : Responding) (sends : List (List ℕ))
        → HoldsResponder responder.old.kept.held r sends
        → (result ≡ OK) × (told.new ≡ heard_told (responder_hears r packet.now).heard)
        × HoldsResponder responder.new.kept.held (responder_hears r packet.now).after
        (responder_hears r packet.now).sent }
    ensures harmless { (r : Responding) (sends : List (List ℕ))
        → HoldsResponder responder.old.kept.held r sends
        → IsHarmless r packet.now (responder_hears r packet.now).heard }
    ensures others { (r : Responding) (sends : List (List ℕ))
        → HoldsResponder responder.old.kept.held r sends
        → HoldsOthers responder.new.kept.held r packet.now }
    ensures closed { responder.old.kept.held ≡ None
        → (result ≡ CLOSED) × (told.new ≡ told.old) × (responder.new.kept.held ≡ None) }
{
    responder.on_packet(alloc, packet, told)
}

/// Writes packet `index`, from 0, of those that a responder sends next.
#[unsafe(no_mangle)]
pub extern "C" fn spdm_responder_packet(
    responder: &mut ResponderHandle,
    alloc: Global,
    index: usize,
    room: &mut [u8],
    len: &mut usize,
) -> u32
    ensures written { (r : Responding) (sends : List (List ℕ))
        → HoldsResponder responder.old.kept.held r sends
        → IsWritten (slice_get sends index) result room.old room.new len.old len.new }
    ensures kept { responder.new.kept.held ≡ responder.old.kept.held }
    ensures closed { responder.old.kept.held ≡ None
        → (result ≡ CLOSED) × (room.new ≡ room.old) × (len.new ≡ len.old) }
{
    responder.packet(alloc, index, room, len)
}

/// Queues application data for the requester with this endpoint ID.
#[unsafe(no_mangle)]
pub extern "C" fn spdm_responder_queue(
    responder: &mut ResponderHandle,
    alloc: Global,
    eid: u8,
    bytes: &[u8],
) -> u32
    ensures queued { (r : Responding) (sends : List (List ℕ))
        → HoldsResponder responder.old.kept.held r sends → is_eid eid ≡ true
        → (result ≡ told_of_reply (reply_fault_of (connection_of eid r.connections) bytes.now))
        × HoldsResponder responder.new.kept.held (after_reply eid bytes.now r) sends }
    ensures bad_eid { responder.old.kept.held ≢ None → is_eid eid ≡ false
        → (result ≡ BAD_EID) × (responder.new.kept.held ≡ responder.old.kept.held) }
    ensures closed { responder.old.kept.held ≡ None
        → (result ≡ CLOSED) × (responder.new.kept.held ≡ None) }
{
    responder.queue(alloc, eid, bytes)
}

/// Advances the clock of a responder.
#[unsafe(no_mangle)]
pub extern "C" fn spdm_responder_tick(
    responder: &mut ResponderHandle,
    alloc: Global,
    seconds: u32,
) -> u32
    ensures ticked { (r : Responding) (sends : List (List ℕ))
        → HoldsResponder responder.old.kept.held r sends
        → (result ≡ OK) × HoldsResponder responder.new.kept.held (ticks r seconds) sends }
    ensures closed { responder.old.kept.held ≡ None
        → (result ≡ CLOSED) × (responder.new.kept.held ≡ None) }
{
    responder.tick(alloc, seconds)
}

/// Gives up the connection with this endpoint, all its sessions and its unfinished message, where the requester is known
/// to be gone: exactly what GET_VERSION from there does, and one packet of the lifetime limit. Its queued replies stay, and
/// the connections with other endpoints are as they were. Nothing is to be sent then, also after a fault of the reset.
#[unsafe(no_mangle)]
pub extern "C" fn spdm_responder_reset(
    responder: &mut ResponderHandle,
    alloc: Global,
    eid: u8,
) -> u32
    ensures reset { (r : Responding) (sends : List (List ℕ))
        → HoldsResponder responder.old.kept.held r sends → is_eid eid ≡ true
        → (result ≡ told_of_reset (reset_fault eid r))
        × HoldsResponder responder.new.kept.held (after_reset eid r) [] }
    ensures others { (r : Responding) (sends : List (List ℕ))
        → HoldsResponder responder.old.kept.held r sends → is_eid eid ≡ true
        → HoldsOthers responder.new.kept.held r (version_packet r.part.eid eid) }
    ensures bad_eid { responder.old.kept.held ≢ None → is_eid eid ≡ false
        → (result ≡ BAD_EID) × (responder.new.kept.held ≡ responder.old.kept.held) }
    ensures closed { responder.old.kept.held ≡ None
        → (result ≡ CLOSED) × (responder.new.kept.held ≡ None) }
{
    responder.reset(alloc, eid)
}

/// Writes the number of the phase of the connection with this endpoint.
#[unsafe(no_mangle)]
pub extern "C" fn spdm_responder_phase(
    responder: &mut ResponderHandle,
    alloc: Global,
    eid: u8,
    phase: &mut u32,
) -> u32
    ensures shown { (r : Responding) (sends : List (List ℕ))
        → HoldsResponder responder.old.kept.held r sends → is_eid eid ≡ true
        → IsPut (option_map (λ c. phase_code (phase_of (clear_turns c.history)))
        (connection_of eid r.connections)) UNKNOWN_PEER result phase.old phase.new }
    ensures bad_eid { responder.old.kept.held ≢ None → is_eid eid ≡ false
        → (result ≡ BAD_EID) × (phase.new ≡ phase.old) }
    ensures kept { responder.new.kept.held ≡ responder.old.kept.held }
    ensures closed { responder.old.kept.held ≡ None
        → (result ≡ CLOSED) × (phase.new ≡ phase.old) }
{
    responder.phase(alloc, eid, phase)
}

/// Writes session `index`, from 0, of those with this endpoint, by rising RspSessionID.
#[unsafe(no_mangle)]
pub extern "C" fn spdm_responder_session(
    responder: &mut ResponderHandle,
    alloc: Global,
    eid: u8,
    index: usize,
    session: &mut Session,
) -> u32
    ensures shown { (r : Responding) (sends : List (List ℕ))
        → HoldsResponder responder.old.kept.held r sends → is_eid eid ≡ true
        → IsPut (option_map shown (slice_get (views_at (connection_of eid r.connections)) index))
        NONE result session.old session.new }
    ensures bad_eid { responder.old.kept.held ≢ None → is_eid eid ≡ false
        → (result ≡ BAD_EID) × (session.new ≡ session.old) }
    ensures kept { responder.new.kept.held ≡ responder.old.kept.held }
    ensures closed { responder.old.kept.held ≡ None
        → (result ≡ CLOSED) × (session.new ≡ session.old) }
{
    responder.session(alloc, eid, index, session)
}

/// Writes the application data received last, over all connections; no bytes before the first.
#[unsafe(no_mangle)]
pub extern "C" fn spdm_responder_data(
    responder: &mut ResponderHandle,
    alloc: Global,
    room: &mut [u8],
    len: &mut usize,
) -> u32
    ensures written { (r : Responding) (sends : List (List ℕ))
        → HoldsResponder responder.old.kept.held r sends
        → IsWritten (Some (last_data r)) result room.old room.new len.old len.new }
    ensures kept { responder.new.kept.held ≡ responder.old.kept.held }
    ensures closed { responder.old.kept.held ≡ None
        → (result ≡ CLOSED) × (room.new ≡ room.old) × (len.new ≡ len.old) }
{
    responder.data(alloc, room, len)
}

/// Closes a responder and frees its memory. A closed one stays closed.
#[unsafe(no_mangle)]
pub extern "C" fn spdm_responder_close(responder: &mut ResponderHandle, alloc: Global)
    ensures { responder.new.kept.held ≡ None }
{
    responder.close(alloc);
}
