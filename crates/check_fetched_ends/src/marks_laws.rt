//! What packets make of the marks of touched sessions, and what leaves them, each law stated as the contract of an
//! empty function.

ghost use Rattle.check_fetched_ends.specs.MarkedEnds.{AwaitingMarkedStay, OtherMarkedStay};

use crate::{awaiting_ends_stay, other_ends_stay};

/// A packet between the responder and another requester leaves what is kept of this one, with its marks.
pub fn other_marked_stay()
    ensures { OtherMarkedStay }
{
    other_ends_stay();
}

/// A packet after which more of a body is awaited leaves it.
pub fn awaiting_marked_stay()
    ensures { AwaitingMarkedStay }
{
    awaiting_ends_stay();
}
