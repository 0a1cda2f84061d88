ghost use Rattle.std.specs.Prelude.{List, None, Some, [], slice_get, ℕ, ◌≡◌, ◌≢◌};
ghost use Rattle.c_ends.specs.Codes.{told_of_command};
ghost use Rattle.c_ends.specs.Holding.{HoldsRequester};
ghost use Rattle.c_ends.specs.Opening.{HasRequesterFault, RefusesRequester};
ghost use Rattle.c_ends.specs.Setting.{command_in, requester_argument, requester_in};
ghost use Rattle.c_ends.specs.Telling.{event_told};
ghost use Rattle.c_ends.specs.Writing.{IsPut, IsWritten};
ghost use Rattle.c_ends.specs.declared.codes.TheConstants.{BAD_COMMAND, CLOSED, NONE, OK};
ghost use Rattle.requester_machine.specs.Message.{Command as Commanded};
ghost use Rattle.requester_machine.specs.Requesting.{Requesting, new_requesting, requester_given, requester_told};
ghost use Rattle.std.specs.Option.{option_map};
ghost use Rattle.c_ends.specs.Showing.{phase_code, shown};
ghost use Rattle.requester_machine.specs.History.{phase_of};
ghost use Rattle.requester_machine.specs.Shown.{last_data, views_of};

use c_ends::{PacketOutcome, RequesterConfig, RequesterHandle, Session};
use std::alloc::Global;

/// Opens a requester. Takes all the memory that it will ever have. After any answer but `OK` the handle holds what
/// it held.
#[unsafe(no_mangle)]
pub extern "C" fn spdm_requester_open(
    requester: &mut RequesterHandle,
    alloc: Global,
    config: &RequesterConfig<'_>,
) -> u32
    ensures opened { result ≡ OK → HoldsRequester requester.new.kept.held
        (new_requesting (requester_in config.now)) [] }
    ensures was_closed { result ≡ OK → requester.old.kept.held ≡ None }
    ensures words { result ≡ OK → requester_argument config.now ≡ None }
    ensures config { result ≡ OK → HasRequesterFault config.now None }
    ensures refused { result ≢ OK → RefusesRequester requester.old.kept.held config.now result }
    ensures unchanged { result ≢ OK → requester.new.kept.held ≡ requester.old.kept.held }
{
    requester.open(alloc, config)
}

/// Runs the command of a number. The packets that a requester sends next replace those before; after a fault of the
/// command there are none.
#[unsafe(no_mangle)]
pub extern "C" fn spdm_requester_command(
    requester: &mut RequesterHandle,
    alloc: Global,
    command: u32,
    session: u8,
    number: u8,
    bytes: &[u8],
) -> u32
    ensures step { (a : Requesting) (sends : List (List ℕ)) (c : Commanded)
        → HoldsRequester requester.old.kept.held a sends
        → command_in command session number bytes.now ≡ Some c
        → (result ≡ told_of_command (requester_told a c).fault)
        × HoldsRequester requester.new.kept.held (requester_told a c).after
        (requester_told a c).sent }
    ensures unknown { requester.old.kept.held ≢ None
        → command_in command session number bytes.now ≡ None
        → (result ≡ BAD_COMMAND) × (requester.new.kept.held ≡ requester.old.kept.held) }
    ensures closed { requester.old.kept.held ≡ None
        → (result ≡ CLOSED) × (requester.new.kept.held ≡ None) }
{
    requester.command(alloc, command, session, number, bytes)
}

/// Gives a packet to a requester. What it led to is written to `told`, and the packets that it sends next replace
/// those before.
#[unsafe(no_mangle)]
pub extern "C" fn spdm_requester_on_packet(
    requester: &mut RequesterHandle,
    alloc: Global,
    packet: &[u8],
    told: &mut PacketOutcome,
) -> u32
    ensures step { (a : Requesting) (sends : List (List ℕ))
        → HoldsRequester requester.old.kept.held a sends
        → (result ≡ OK) × (told.new ≡ event_told (requester_given a packet.now).event)
        × HoldsRequester requester.new.kept.held (requester_given a packet.now).after
        (requester_given a packet.now).sent }
    ensures closed { requester.old.kept.held ≡ None
        → (result ≡ CLOSED) × (told.new ≡ told.old) × (requester.new.kept.held ≡ None) }
{
    requester.on_packet(alloc, packet, told)
}

/// Writes packet `index`, from 0, of those that a requester sends next.
#[unsafe(no_mangle)]
pub extern "C" fn spdm_requester_packet(
    requester: &mut RequesterHandle,
    alloc: Global,
    index: usize,
    room: &mut [u8],
    len: &mut usize,
) -> u32
    ensures written { (a : Requesting) (sends : List (List ℕ))
        → HoldsRequester requester.old.kept.held a sends
        → IsWritten (slice_get sends index) result room.old room.new len.old len.new }
    ensures kept { requester.new.kept.held ≡ requester.old.kept.held }
    ensures closed { requester.old.kept.held ≡ None
        → (result ≡ CLOSED) × (room.new ≡ room.old) × (len.new ≡ len.old) }
{
    requester.packet(alloc, index, room, len)
}

/// Writes the number of the phase of the negotiation.
#[unsafe(no_mangle)]
pub extern "C" fn spdm_requester_phase(
    requester: &mut RequesterHandle,
    alloc: Global,
    phase: &mut u32,
) -> u32
    ensures shown { (a : Requesting) (sends : List (List ℕ))
        → HoldsRequester requester.old.kept.held a sends
        → (result ≡ OK) × (phase.new ≡ phase_code (phase_of a.history)) }
    ensures kept { requester.new.kept.held ≡ requester.old.kept.held }
    ensures closed { requester.old.kept.held ≡ None
        → (result ≡ CLOSED) × (phase.new ≡ phase.old) }
{
    requester.phase(alloc, phase)
}

/// Writes session `index`, from 0, of those whose PSK_EXCHANGE_RSP was accepted, by rising ReqSessionID.
#[unsafe(no_mangle)]
pub extern "C" fn spdm_requester_session(
    requester: &mut RequesterHandle,
    alloc: Global,
    index: usize,
    session: &mut Session,
) -> u32
    ensures shown { (a : Requesting) (sends : List (List ℕ))
        → HoldsRequester requester.old.kept.held a sends
        → IsPut (option_map shown (slice_get (views_of a.history) index)) NONE result
        session.old session.new }
    ensures kept { requester.new.kept.held ≡ requester.old.kept.held }
    ensures closed { requester.old.kept.held ≡ None
        → (result ≡ CLOSED) × (session.new ≡ session.old) }
{
    requester.session(alloc, index, session)
}

/// Writes the application data or the measurement record received last; no bytes before the first.
#[unsafe(no_mangle)]
pub extern "C" fn spdm_requester_data(
    requester: &mut RequesterHandle,
    alloc: Global,
    room: &mut [u8],
    len: &mut usize,
) -> u32
    ensures written { (a : Requesting) (sends : List (List ℕ))
        → HoldsRequester requester.old.kept.held a sends
        → IsWritten (Some (last_data a.history)) result room.old room.new len.old len.new }
    ensures kept { requester.new.kept.held ≡ requester.old.kept.held }
    ensures closed { requester.old.kept.held ≡ None
        → (result ≡ CLOSED) × (room.new ≡ room.old) × (len.new ≡ len.old) }
{
    requester.data(alloc, room, len)
}

/// Closes a requester and frees its memory. A closed one stays closed.
#[unsafe(no_mangle)]
pub extern "C" fn spdm_requester_close(requester: &mut RequesterHandle, alloc: Global)
    ensures { requester.new.kept.held ≡ None }
{
    requester.close(alloc);
}
