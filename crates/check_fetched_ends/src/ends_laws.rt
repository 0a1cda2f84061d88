//! What leaves what is kept of a requester, each law stated as the contract of an empty function.

ghost use Rattle.check_fetched_ends.specs.JudgedEnds.{AwaitingEndsStay, OtherEndsStay};

use check_laws::other_places_stay;

/// A packet between the responder and another requester leaves it.
pub fn other_ends_stay()
    ensures { OtherEndsStay }
{
    other_places_stay();
}

/// A packet after which more of a body is awaited leaves it.
pub fn awaiting_ends_stay()
    ensures { AwaitingEndsStay }
{}
