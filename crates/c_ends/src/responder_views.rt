ghost use Rattle.std.specs.Prelude.{◌≡◌, ◌≢◌, ℕ, List, None, Some, false, true, slice_get};
ghost use Rattle.std.specs.Option.{option_map};
ghost use Rattle.c_ends.specs.Holding.{HoldsResponder};
ghost use Rattle.c_ends.specs.Setting.{is_eid};
ghost use Rattle.c_ends.specs.Showing.{phase_code, shown};
ghost use Rattle.c_ends.specs.Writing.{IsPut, IsWritten};
ghost use Rattle.c_ends.specs.declared.codes.TheConstants.{BAD_EID, CLOSED, NONE, UNKNOWN_PEER};
ghost use Rattle.responder.specs.Standing.{StandsFor, views_at};
ghost use Rattle.responder_machine.specs.History.{clear_turns, phase_of};
ghost use Rattle.responder_machine.specs.Responding.{Responding, connection_of, last_data};

use crate::codes;
use crate::open_responder::OpenResponder;
use crate::responder_handle::ResponderHandle;
use crate::session::{Session, phase_code, put_session};
use crate::writing::write_bytes;
use spdm_basis::Eid;
use std::alloc::Global;

// What a responder shows. None of these calls changes it.
impl ResponderHandle {
    /// Writes the number of the phase of the connection with this endpoint.
    pub fn phase(&mut self, alloc: Global, eid: u8, phase: &mut u32) -> u32
        ensures shown { (r : Responding) (sends : List (List ℕ))
            → HoldsResponder self.old.kept.held r sends → is_eid eid ≡ true
            → IsPut (option_map (λ c. phase_code (phase_of (clear_turns c.history)))
            (connection_of eid r.connections)) UNKNOWN_PEER result phase.old phase.new }
        ensures bad_eid { self.old.kept.held ≢ None → is_eid eid ≡ false
            → (result ≡ BAD_EID) × (phase.new ≡ phase.old) }
        ensures kept { self.new.kept.held ≡ self.old.kept.held }
        ensures closed { self.old.kept.held ≡ None
            → (result ≡ CLOSED) × (phase.new ≡ phase.old) }
    {
        let Some(end) = self.take_out(alloc) else {
            return codes::CLOSED;
        };
        let code = write_phase(&end, eid, phase);
        self.put_in(end);
        code
    }

    /// Writes session `index`, from 0, of those with this endpoint, by rising RspSessionID.
    pub fn session(&mut self, alloc: Global, eid: u8, index: usize, session: &mut Session) -> u32
        ensures shown { (r : Responding) (sends : List (List ℕ))
            → HoldsResponder self.old.kept.held r sends → is_eid eid ≡ true
            → IsPut (option_map shown (slice_get (views_at (connection_of eid r.connections)) index))
            NONE result session.old session.new }
        ensures bad_eid { self.old.kept.held ≢ None → is_eid eid ≡ false
            → (result ≡ BAD_EID) × (session.new ≡ session.old) }
        ensures kept { self.new.kept.held ≡ self.old.kept.held }
        ensures closed { self.old.kept.held ≡ None
            → (result ≡ CLOSED) × (session.new ≡ session.old) }
    {
        let Some(end) = self.take_out(alloc) else {
            return codes::CLOSED;
        };
        let code = write_session(&end, eid, index, session);
        self.put_in(end);
        code
    }

    /// Writes the application data received last, over all connections; no bytes before the first.
    pub fn data(&mut self, alloc: Global, room: &mut [u8], len: &mut usize) -> u32
        ensures written { (r : Responding) (sends : List (List ℕ))
            → HoldsResponder self.old.kept.held r sends
            → IsWritten (Some (last_data r)) result room.old room.new len.old len.new }
        ensures kept { self.new.kept.held ≡ self.old.kept.held }
        ensures closed { self.old.kept.held ≡ None
            → (result ≡ CLOSED) × (room.new ≡ room.old) × (len.new ≡ len.old) }
    {
        let Some(end) = self.take_out(alloc) else {
            return codes::CLOSED;
        };
        let code = write_bytes(end.responder.last_data(), room, len);
        self.put_in(end);
        code
    }
}

fn write_phase(end: &OpenResponder, eid: u8, phase: &mut u32) -> u32
    ensures shown { (r : Responding) → StandsFor end.now.responder r → is_eid eid ≡ true
        → IsPut (option_map (λ c. phase_code (phase_of (clear_turns c.history)))
        (connection_of eid r.connections)) UNKNOWN_PEER result phase.old phase.new }
    ensures bad_eid { is_eid eid ≡ false → (result ≡ BAD_EID) × (phase.new ≡ phase.old) }
{
    let Some(eid) = Eid::new(eid) else {
        return codes::BAD_EID;
    };
    match end.responder.phase(eid) {
        Some(found) => {
            *phase = phase_code(found);
            codes::OK
        }
        None => codes::UNKNOWN_PEER,
    }
}

fn write_session(end: &OpenResponder, eid: u8, index: usize, session: &mut Session) -> u32
    ensures shown { (r : Responding) → StandsFor end.now.responder r → is_eid eid ≡ true
        → IsPut (option_map shown (slice_get (views_at (connection_of eid r.connections)) index))
        NONE result session.old session.new }
    ensures bad_eid { is_eid eid ≡ false → (result ≡ BAD_EID) × (session.new ≡ session.old) }
{
    let Some(eid) = Eid::new(eid) else {
        return codes::BAD_EID;
    };
    put_session(&end.responder.sessions(eid), index, session)
}
