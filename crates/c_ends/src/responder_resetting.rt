ghost use Rattle.std.specs.Prelude.{◌≡◌, ◌≢◌, ℕ, List, [], None, false, true};
ghost use Rattle.c_ends.specs.Codes.{told_of_reset};
ghost use Rattle.c_ends.specs.Holding.{HoldsOthers, HoldsResponder};
ghost use Rattle.c_ends.specs.Setting.{is_eid};
ghost use Rattle.c_ends.specs.declared.codes.TheConstants.{BAD_EID, CLOSED};
ghost use Rattle.responder.specs.Resetting.{after_reset, reset_fault, version_packet};
ghost use Rattle.responder.specs.Standing.{StandsFor};
ghost use Rattle.responder.specs.Unharmed.{AreOthersKept};
ghost use Rattle.responder_machine.specs.Responding.{Responding};

use crate::codes;
use crate::open_responder::OpenResponder;
use crate::responder_handle::ResponderHandle;
use spdm_basis::Eid;
use std::alloc::Global;

impl ResponderHandle {
    /// Gives up the connection with this endpoint, all its sessions and its unfinished message, where the requester is
    /// known to be gone: exactly what GET_VERSION from there does, and one packet of the lifetime limit. Its queued
    /// replies stay, and the connections with other endpoints are as they were. Nothing is to be sent then, also after
    /// a fault of the reset.
    pub fn reset(&mut self, alloc: Global, eid: u8) -> u32
        ensures reset { (r : Responding) (sends : List (List ℕ))
            → HoldsResponder self.old.kept.held r sends → is_eid eid ≡ true
            → (result ≡ told_of_reset (reset_fault eid r))
            × HoldsResponder self.new.kept.held (after_reset eid r) [] }
        ensures others { (r : Responding) (sends : List (List ℕ))
            → HoldsResponder self.old.kept.held r sends → is_eid eid ≡ true
            → HoldsOthers self.new.kept.held r (version_packet r.part.eid eid) }
        ensures bad_eid { self.old.kept.held ≢ None → is_eid eid ≡ false
            → (result ≡ BAD_EID) × (self.new.kept.held ≡ self.old.kept.held) }
        ensures closed { self.old.kept.held ≡ None
            → (result ≡ CLOSED) × (self.new.kept.held ≡ None) }
    {
        let Some(mut end) = self.take_out(alloc) else {
            return codes::CLOSED;
        };
        let code = given_up(&mut end, eid);
        self.put_in(end);
        code
    }
}

// Gives up the connection with an endpoint where the endpoint ID is one.
fn given_up(end: &mut OpenResponder, eid: u8) -> u32
    ensures reset { (r : Responding) → StandsFor end.old.responder r → is_eid eid ≡ true
        → (result ≡ told_of_reset (reset_fault eid r))
        × StandsFor end.new.responder (after_reset eid r) × (end.new.out ≡ []) }
    ensures others { (r : Responding) → StandsFor end.old.responder r → is_eid eid ≡ true
        → AreOthersKept r (version_packet r.part.eid eid) end.new.responder }
    ensures bad_eid { is_eid eid ≡ false → (result ≡ BAD_EID) × (end.new ≡ end.old) }
{
    let Some(eid) = Eid::new(eid) else {
        return codes::BAD_EID;
    };
    match end.reset(eid) {
        Ok(()) => codes::OK,
        Err(fault) => codes::of_reset(fault),
    }
}
