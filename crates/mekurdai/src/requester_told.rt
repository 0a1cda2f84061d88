ghost use Rattle.std.specs.Prelude.{List, None, ℕ, ◌≡◌};
ghost use Rattle.std.specs.Option.{option_map};
ghost use Rattle.c_ends.specs.Holding.{HoldsRequester};
ghost use Rattle.c_ends.specs.Showing.{told_opaque, told_period, told_summary};
ghost use Rattle.c_ends.specs.Writing.{IsPut, IsWritten};
ghost use Rattle.c_ends.specs.declared.codes.TheConstants.{CLOSED, NONE};
ghost use Rattle.psk_session.specs.Told.{told_of};
ghost use Rattle.requester_machine.specs.Requesting.{Requesting};
ghost use Rattle.requester_machine.specs.Session.{session_of};

use c_ends::RequesterHandle;
use std::alloc::Global;

/// Writes the HeartbeatPeriod of the session with this ReqSessionID, in seconds; 0 for no heartbeat.
#[unsafe(no_mangle)]
pub extern "C" fn spdm_requester_period(
    requester: &mut RequesterHandle,
    alloc: Global,
    req_id: u16,
    period: &mut u32,
) -> u32
    ensures told { (a : Requesting) (sends : List (List ℕ))
        → HoldsRequester requester.old.kept.held a sends
        → IsPut (option_map told_period (told_of (session_of req_id a.history))) NONE result
        period.old period.new }
    ensures kept { requester.new.kept.held ≡ requester.old.kept.held }
    ensures closed { requester.old.kept.held ≡ None
        → (result ≡ CLOSED) × (period.new ≡ period.old) }
{
    requester.period(alloc, req_id, period)
}

/// Writes the measurement summary of the session with this ReqSessionID; no bytes where none was asked for.
#[unsafe(no_mangle)]
pub extern "C" fn spdm_requester_summary(
    requester: &mut RequesterHandle,
    alloc: Global,
    req_id: u16,
    room: &mut [u8],
    len: &mut usize,
) -> u32
    ensures told { (a : Requesting) (sends : List (List ℕ))
        → HoldsRequester requester.old.kept.held a sends
        → IsWritten (option_map told_summary (told_of (session_of req_id a.history))) result
        room.old room.new len.old len.new }
    ensures kept { requester.new.kept.held ≡ requester.old.kept.held }
    ensures closed { requester.old.kept.held ≡ None
        → (result ≡ CLOSED) × (room.new ≡ room.old) × (len.new ≡ len.old) }
{
    requester.summary(alloc, req_id, room, len)
}

/// Writes the opaque data that the responder sent for the session with this ReqSessionID.
#[unsafe(no_mangle)]
pub extern "C" fn spdm_requester_opaque(
    requester: &mut RequesterHandle,
    alloc: Global,
    req_id: u16,
    room: &mut [u8],
    len: &mut usize,
) -> u32
    ensures told { (a : Requesting) (sends : List (List ℕ))
        → HoldsRequester requester.old.kept.held a sends
        → IsWritten (option_map told_opaque (told_of (session_of req_id a.history))) result
        room.old room.new len.old len.new }
    ensures kept { requester.new.kept.held ≡ requester.old.kept.held }
    ensures closed { requester.old.kept.held ≡ None
        → (result ≡ CLOSED) × (room.new ≡ room.old) × (len.new ≡ len.old) }
{
    requester.opaque(alloc, req_id, room, len)
}
