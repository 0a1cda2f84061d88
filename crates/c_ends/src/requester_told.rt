ghost use Rattle.std.specs.Prelude.{◌≡◌, ℕ, List, MatchOption, None, Option, Some};
ghost use Rattle.std.specs.Option.{option_map};
ghost use Rattle.c_ends.specs.Holding.{HoldsRequester};
ghost use Rattle.c_ends.specs.Showing.{told_opaque, told_period, told_summary};
ghost use Rattle.c_ends.specs.Writing.{IsPut, IsWritten};
ghost use Rattle.c_ends.specs.declared.codes.TheConstants.{CLOSED, NONE};
ghost use Rattle.psk_session.specs.Told.{told_of};
ghost use Rattle.psk_session.specs.declared.session_told.SessionTold as noted;
ghost use Rattle.requester_machine.specs.Requesting.{Requesting};
ghost use Rattle.requester_machine.specs.Session.{session_of};

use crate::codes;
use crate::requester_handle::RequesterHandle;
use crate::writing::write_bytes;
use requester::SessionTold;
use std::alloc::Global;

// HeartbeatPeriod, where something was told.
fn put_period(told: Option<&SessionTold>, period: &mut u32) -> u32
    ensures { (o : Option noted.SessionTold) → MatchOption told.entry (o ≡ None) (λ t. o ≡ Some t.now)
        → IsPut (option_map told_period o) NONE result period.old period.new }
{
    match told {
        Some(told) => {
            *period = u32::from(told.period);
            codes::OK
        }
        None => codes::NONE,
    }
}

// The measurement summary, where something was told.
fn write_summary(told: Option<&SessionTold>, room: &mut [u8], len: &mut usize) -> u32
    ensures { (o : Option noted.SessionTold) → MatchOption told.entry (o ≡ None) (λ t. o ≡ Some t.now)
        → IsWritten (option_map told_summary o) result room.old room.new len.old len.new }
{
    match told {
        Some(told) => write_bytes(told.summary.as_slice(), room, len),
        None => codes::NONE,
    }
}

// The opaque data, where something was told.
fn write_opaque(told: Option<&SessionTold>, room: &mut [u8], len: &mut usize) -> u32
    ensures { (o : Option noted.SessionTold) → MatchOption told.entry (o ≡ None) (λ t. o ≡ Some t.now)
        → IsWritten (option_map told_opaque o) result room.old room.new len.old len.new }
{
    match told {
        Some(told) => write_bytes(told.opaque.as_slice(), room, len),
        None => codes::NONE,
    }
}

// What PSK_EXCHANGE_RSP told of a session. None of these calls changes the requester.
impl RequesterHandle {
    /// Writes the HeartbeatPeriod of the session with this ReqSessionID, in seconds; 0 for no heartbeat.
    pub fn period(&mut self, alloc: Global, req_id: u16, period: &mut u32) -> u32
        ensures told { (a : Requesting) (sends : List (List ℕ))
            → HoldsRequester self.old.kept.held a sends
            → IsPut (option_map told_period (told_of (session_of req_id a.history))) NONE result
            period.old period.new }
        ensures kept { self.new.kept.held ≡ self.old.kept.held }
        ensures closed { self.old.kept.held ≡ None
            → (result ≡ CLOSED) × (period.new ≡ period.old) }
    {
        let Some(end) = self.take_out(alloc) else {
            return codes::CLOSED;
        };
        let code = put_period(end.requester.told(req_id), period);
        self.put_in(end);
        code
    }

    /// Writes the measurement summary of the session with this ReqSessionID; no bytes where none was asked for.
    pub fn summary(&mut self, alloc: Global, req_id: u16, room: &mut [u8], len: &mut usize) -> u32
        ensures told { (a : Requesting) (sends : List (List ℕ))
            → HoldsRequester self.old.kept.held a sends
            → IsWritten (option_map told_summary (told_of (session_of req_id a.history))) result
            room.old room.new len.old len.new }
        ensures kept { self.new.kept.held ≡ self.old.kept.held }
        ensures closed { self.old.kept.held ≡ None
            → (result ≡ CLOSED) × (room.new ≡ room.old) × (len.new ≡ len.old) }
    {
        let Some(end) = self.take_out(alloc) else {
            return codes::CLOSED;
        };
        let code = write_summary(end.requester.told(req_id), room, len);
        self.put_in(end);
        code
    }

    /// Writes the opaque data that the responder sent for the session with this ReqSessionID.
    pub fn opaque(&mut self, alloc: Global, req_id: u16, room: &mut [u8], len: &mut usize) -> u32
        ensures told { (a : Requesting) (sends : List (List ℕ))
            → HoldsRequester self.old.kept.held a sends
            → IsWritten (option_map told_opaque (told_of (session_of req_id a.history))) result
            room.old room.new len.old len.new }
        ensures kept { self.new.kept.held ≡ self.old.kept.held }
        ensures closed { self.old.kept.held ≡ None
            → (result ≡ CLOSED) × (room.new ≡ room.old) × (len.new ≡ len.old) }
    {
        let Some(end) = self.take_out(alloc) else {
            return codes::CLOSED;
        };
        let code = write_opaque(end.requester.told(req_id), room, len);
        self.put_in(end);
        code
    }
}
