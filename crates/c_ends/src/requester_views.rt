ghost use Rattle.std.specs.Prelude.{◌≡◌, ℕ, List, None, Some, slice_get};
ghost use Rattle.std.specs.Option.{option_map};
ghost use Rattle.c_ends.specs.Holding.{HoldsRequester};
ghost use Rattle.c_ends.specs.Showing.{phase_code, shown};
ghost use Rattle.c_ends.specs.Writing.{IsPut, IsWritten};
ghost use Rattle.c_ends.specs.declared.codes.TheConstants.{CLOSED, NONE, OK};
ghost use Rattle.requester_machine.specs.History.{phase_of};
ghost use Rattle.requester_machine.specs.Requesting.{Requesting};
ghost use Rattle.requester_machine.specs.Shown.{last_data, views_of};

use crate::codes;
use crate::requester_handle::RequesterHandle;
use crate::session::{Session, phase_code, put_session};
use crate::writing::write_bytes;
use std::alloc::Global;

// What a requester shows. None of these calls changes it.
impl RequesterHandle {
    /// Writes the number of the phase of the negotiation.
    pub fn phase(&mut self, alloc: Global, phase: &mut u32) -> u32
        ensures shown { (a : Requesting) (sends : List (List ℕ))
            → HoldsRequester self.old.kept.held a sends
            → (result ≡ OK) × (phase.new ≡ phase_code (phase_of a.history)) }
        ensures kept { self.new.kept.held ≡ self.old.kept.held }
        ensures closed { self.old.kept.held ≡ None
            → (result ≡ CLOSED) × (phase.new ≡ phase.old) }
    {
        let Some(end) = self.take_out(alloc) else {
            return codes::CLOSED;
        };
        *phase = phase_code(end.requester.phase());
        self.put_in(end);
        codes::OK
    }

    /// Writes session `index`, from 0, of those whose PSK_EXCHANGE_RSP was accepted, by rising ReqSessionID.
    pub fn session(&mut self, alloc: Global, index: usize, session: &mut Session) -> u32
        ensures shown { (a : Requesting) (sends : List (List ℕ))
            → HoldsRequester self.old.kept.held a sends
            → IsPut (option_map shown (slice_get (views_of a.history) index)) NONE result
            session.old session.new }
        ensures kept { self.new.kept.held ≡ self.old.kept.held }
        ensures closed { self.old.kept.held ≡ None
            → (result ≡ CLOSED) × (session.new ≡ session.old) }
    {
        let Some(end) = self.take_out(alloc) else {
            return codes::CLOSED;
        };
        let code = put_session(&end.requester.sessions(), index, session);
        self.put_in(end);
        code
    }

    /// Writes the application data or the measurement record received last; no bytes before the first.
    pub fn data(&mut self, alloc: Global, room: &mut [u8], len: &mut usize) -> u32
        ensures written { (a : Requesting) (sends : List (List ℕ))
            → HoldsRequester self.old.kept.held a sends
            → IsWritten (Some (last_data a.history)) result room.old room.new len.old len.new }
        ensures kept { self.new.kept.held ≡ self.old.kept.held }
        ensures closed { self.old.kept.held ≡ None
            → (result ≡ CLOSED) × (room.new ≡ room.old) × (len.new ≡ len.old) }
    {
        let Some(end) = self.take_out(alloc) else {
            return codes::CLOSED;
        };
        let code = write_bytes(end.requester.last_data(), room, len);
        self.put_in(end);
        code
    }
}
