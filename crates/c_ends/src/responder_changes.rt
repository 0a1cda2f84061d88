ghost use Rattle.std.specs.Prelude.{◌≡◌, ◌≢◌, ℕ, List, None, false, true};
ghost use Rattle.c_ends.specs.Holding.{HoldsResponder};
ghost use Rattle.c_ends.specs.Setting.{is_eid};
ghost use Rattle.c_ends.specs.Watching.{AreChanges};
ghost use Rattle.c_ends.specs.declared.codes.TheConstants.{BAD_EID, CLOSED};
ghost use Rattle.responder.specs.Standing.{StandsFor};
ghost use Rattle.responder_machine.specs.Responding.{Responding, connection_of};

use crate::codes;
use crate::open_responder::OpenResponder;
use crate::responder_handle::ResponderHandle;
use crate::watch::{Changes, Watch};
use spdm_basis::Eid;
use std::alloc::Global;

impl ResponderHandle {
    /// Writes what became of the sessions with this endpoint since they stood as the watch has them, by rising
    /// RspSessionID from 1 to 4, and leaves the watch with how they stand now.
    pub fn changes(
        &mut self,
        alloc: Global,
        eid: u8,
        watch: &mut Watch,
        changes: &mut Changes,
    ) -> u32
        ensures changes { (r : Responding) (sends : List (List ℕ))
            → HoldsResponder self.old.kept.held r sends → is_eid eid ≡ true
            → AreChanges (connection_of eid r.connections) result watch.old watch.new changes.old
            changes.new }
        ensures bad_eid { self.old.kept.held ≢ None → is_eid eid ≡ false
            → (result ≡ BAD_EID) × (watch.new ≡ watch.old) × (changes.new ≡ changes.old) }
        ensures kept { self.new.kept.held ≡ self.old.kept.held }
        ensures closed { self.old.kept.held ≡ None
            → (result ≡ CLOSED) × (watch.new ≡ watch.old) × (changes.new ≡ changes.old) }
    {
        let Some(end) = self.take_out(alloc) else {
            return codes::CLOSED;
        };
        let code = write_changes(&end, eid, watch, changes);
        self.put_in(end);
        code
    }
}

fn write_changes(end: &OpenResponder, eid: u8, watch: &mut Watch, changes: &mut Changes) -> u32
    ensures changes { (r : Responding) → StandsFor end.now.responder r → is_eid eid ≡ true
        → AreChanges (connection_of eid r.connections) result watch.old watch.new changes.old
        changes.new }
    ensures bad_eid { is_eid eid ≡ false
        → (result ≡ BAD_EID) × (watch.new ≡ watch.old) × (changes.new ≡ changes.old) }
{
    let Some(eid) = Eid::new(eid) else {
        return codes::BAD_EID;
    };
    let Some(_) = end.responder.phase(eid) else {
        return codes::UNKNOWN_PEER;
    };
    let now = Watch::of(&end.responder, eid);
    *changes = watch.changes_to(&now);
    *watch = now;
    codes::OK
}
