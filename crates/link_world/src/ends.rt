ghost use Rattle.std.specs.Prelude.{◌≡◌, ◌<◌, ◌+◌};

use requester::Requester;
use responder::Responder;
use spdm_basis::Eid;

/// A requester and its endpoint ID.
#[derive(Drop)]
pub struct AddressedRequester {
    pub(crate) eid: Eid,
    pub(crate) requester: Requester,
}

/// The endpoints of a world: the requesters, in order, and the responder.
#[derive(Drop)]
pub struct Ends {
    pub(crate) requesters: Vec<AddressedRequester>,
    /// The endpoint ID of the responder.
    pub(crate) eid: Eid,
    pub(crate) responder: Responder,
    /// The number of application messages received at all endpoints. It saturates at `u64::MAX`.
    pub(crate) taken: u64,
}

// The number of the requester at an index. A world has fewer than 255 of them.
pub(crate) fn number_of_place(place: usize) -> u8
    ensures { place < 255 → result ≡ place + 1 }
{
    if place < usize::from(u8::MAX) {
        place as u8 + 1
    } else {
        0
    }
}

impl Ends {
    ghost use Rattle.std.specs.Prelude.{◌≡◌, ◌<◌, IfSome, length};
    ghost use Rattle.link_world.specs.Standing.{AreEnds, has_eid};
    ghost use Rattle.std.specs.List.{position_from};
    ghost use Rattle.world_machine.specs.World.{World, number_at};

    // The index of the requester with this endpoint ID, counted from 0.
    pub(crate) fn place_of(&self, eid: u8) -> Option<usize>
        ensures place { result ≡ position_from (has_eid eid) 0 self.now.requesters.items }
        ensures inside { IfSome result (λ place. place < length self.now.requesters.items) }
    {
        self.requesters
            .iter()
            .position(|asker| asker.eid.number() == eid)
    }

    // The number of the requester with this endpoint ID, counted from 1; 0 if there is none.
    pub(crate) fn number_of(&self, eid: u8) -> u8
        ensures { (w : World) → AreEnds self.now w → result ≡ number_at eid w }
    {
        match self.place_of(eid) {
            Some(place) => number_of_place(place),
            None => 0,
        }
    }
}
