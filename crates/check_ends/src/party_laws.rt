//! What packets between others leave, as the contract of a function that does nothing.

ghost use Rattle.check_ends.specs.Party.{OtherPartiesStay};

use check_laws::other_places_stay;

/// A packet between the responder and another requester leaves what is kept of this one, among the rows that it makes.
pub fn other_parties_stay()
    ensures { OtherPartiesStay }
{
    other_places_stay();
}
